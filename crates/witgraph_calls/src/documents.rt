//! JSON documents of commands.
ghost use Rattle.std.specs.Prelude.{◌≡◌, ◌≤◌, true, false};
ghost use Rattle.std.specs.Str.{IsUtf8};
ghost use Rattle.wit_json_commands.specs.Documents.{ComesOutOfBytes};
ghost use Rattle.witgraph_calls.specs.Output.{IsTooLong, IsWritten};

use crate::output::{none_needed, put_text};
use crate::status::{INPUT_NOT_UTF8, NO_MEMORY, NOT_UNDERSTOOD, OUTPUT_TOO_SMALL, UNDERSTOOD};
use std::alloc::Global;
use wit_json_commands::respond;

/// Carries out the commands of a JSON document, on an empty graph or on the one that it begins with, and writes the
/// document that comes out to the front of the output: the one that `wit_json_commands::execute` writes, and so the program
/// `witgraph_json`. Of a document that isn't understood it has the first fault.
///
/// All else is as of `execute`.
pub fn carry_out(alloc: Global, input: &[u8], output: &mut [u8], needed: &mut usize) -> u32
    ensures status { result ≤ NO_MEMORY }
    ensures understood { result ≡ UNDERSTOOD
        → IsWritten (ComesOutOfBytes input.now true) output.old output.new needed.new }
    ensures not_understood { result ≡ NOT_UNDERSTOOD
        → IsWritten (ComesOutOfBytes input.now false) output.old output.new needed.new }
    ensures small { result ≡ OUTPUT_TOO_SMALL
        → IsTooLong (ComesOutOfBytes input.now) output.old needed.new }
    ensures utf8 { result ≡ INPUT_NOT_UTF8 → IsUtf8 input.now → ⊥ }
    ensures memory { result ≡ NO_MEMORY → IsUtf8 input.now }
    ensures kept { OUTPUT_TOO_SMALL ≤ result → output.new ≡ output.old }
    ensures none { INPUT_NOT_UTF8 ≤ result → needed.new ≡ 0 }
{
    let Ok(document) = str::from_utf8(input) else {
        return none_needed(INPUT_NOT_UTF8, needed);
    };
    match respond(alloc, document) {
        Ok((understood, text)) => put_text(understood, text.as_bytes(), output, needed),
        Err(_) => none_needed(NO_MEMORY, needed),
    }
}
