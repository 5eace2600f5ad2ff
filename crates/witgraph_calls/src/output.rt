//! What a call leaves in its output, and the status that tells it.
ghost use Rattle.std.specs.Prelude.{◌≡◌, ◌<◌, ◌≤◌, length, true, false};
ghost use Rattle.witgraph_calls.specs.Output.{HasFront};

use crate::status::{NOT_UNDERSTOOD, OUTPUT_TOO_SMALL, UNDERSTOOD};

/// Copies a text to the front of the output where it has room, and tells how long the text is.
pub fn put_text(understood: bool, text: &[u8], output: &mut [u8], needed: &mut usize) -> u32
    ensures needed { needed.new ≡ length text.now }
    ensures status { result ≤ OUTPUT_TOO_SMALL }
    ensures understood { result ≡ UNDERSTOOD
        → (understood ≡ true) × HasFront text.now output.old output.new }
    ensures not_understood { result ≡ NOT_UNDERSTOOD
        → (understood ≡ false) × HasFront text.now output.old output.new }
    ensures small { result ≡ OUTPUT_TOO_SMALL
        → (length output.old < length text.now) × (output.new ≡ output.old) }
{
    *needed = text.len();
    if output.len() < text.len() {
        return OUTPUT_TOO_SMALL;
    }
    output[..text.len()].copy_from_slice(text);
    if understood {
        UNDERSTOOD
    } else {
        NOT_UNDERSTOOD
    }
}

/// A status for which nothing is needed.
pub fn none_needed(status: u32, needed: &mut usize) -> u32
    ensures same { result ≡ status }
    ensures needed { needed.new ≡ 0 }
{
    *needed = 0;
    status
}
