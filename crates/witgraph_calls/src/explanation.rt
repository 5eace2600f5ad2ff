//! The refusals of a script and what its commands don't find, each with its line.
ghost use Rattle.std.specs.Prelude.{◌≡◌, ◌≤◌, true, false};
ghost use Rattle.std.specs.Str.{IsUtf8};
ghost use Rattle.wit_script_explain.specs.Explained.{Explains};
ghost use Rattle.witgraph_calls.specs.Output.{IsTooLong, IsWritten};

use crate::output::{none_needed, put_text};
use crate::status::{INPUT_NOT_UTF8, NO_MEMORY, NOT_UNDERSTOOD, OUTPUT_TOO_SMALL, UNDERSTOOD};
use std::alloc::Global;
use wit_script_explain::explain_text;

/// Runs a script on an empty graph, and writes its refusals and what its commands don't find to the front of the output,
/// each with its lines, as `explain_text` of `wit_script_explain` tells them. Nothing is written of a script whose commands
/// all come to something; of one that isn't understood, the line at which it isn't and why.
///
/// All else is as of `execute`.
pub fn explain(alloc: Global, input: &[u8], output: &mut [u8], needed: &mut usize) -> u32
    ensures status { result ≤ NO_MEMORY }
    ensures understood { result ≡ UNDERSTOOD
        → IsWritten (Explains input.now true) output.old output.new needed.new }
    ensures not_understood { result ≡ NOT_UNDERSTOOD
        → IsWritten (Explains input.now false) output.old output.new needed.new }
    ensures small { result ≡ OUTPUT_TOO_SMALL
        → IsTooLong (Explains input.now) output.old needed.new }
    ensures utf8 { result ≡ INPUT_NOT_UTF8 → IsUtf8 input.now → ⊥ }
    ensures memory { result ≡ NO_MEMORY → IsUtf8 input.now }
    ensures kept { OUTPUT_TOO_SMALL ≤ result → output.new ≡ output.old }
    ensures none { INPUT_NOT_UTF8 ≤ result → needed.new ≡ 0 }
{
    let Ok(script) = str::from_utf8(input) else {
        return none_needed(INPUT_NOT_UTF8, needed);
    };
    match explain_text(alloc, script) {
        Ok((understood, text)) => put_text(understood, text.as_bytes(), output, needed),
        Err(_) => none_needed(NO_MEMORY, needed),
    }
}
