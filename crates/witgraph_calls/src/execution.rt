//! The answers of a script.
ghost use Rattle.std.specs.Prelude.{◌≡◌, ◌≤◌, true, false};
ghost use Rattle.std.specs.Str.{IsUtf8};
ghost use Rattle.wit_script.specs.Prints.{Prints};
ghost use Rattle.witgraph_calls.specs.Output.{IsTooLong, IsWritten};

use crate::output::{none_needed, put_text};
use crate::status::{INPUT_NOT_UTF8, NO_MEMORY, NOT_UNDERSTOOD, OUTPUT_TOO_SMALL, UNDERSTOOD};
use std::alloc::Global;
use wit_script::execute_text;

/// Runs a script on an empty graph, and writes its answers to the front of the output: those that
/// `wit_script::execute` writes, and so the program `witgraph`. `needed` gets their whole length.
///
/// The answer is a status: `UNDERSTOOD` where the script was understood and run, refusals included; `NOT_UNDERSTOOD`
/// where one line of output says which line wasn't; `OUTPUT_TOO_SMALL` where the output is shorter than what is
/// needed; `INPUT_NOT_UTF8` exactly of an input that isn't; `NO_MEMORY` where memory was wanted outside a command. After
/// the last three the output is as before, and after the last two nothing is needed.
pub fn execute(alloc: Global, input: &[u8], output: &mut [u8], needed: &mut usize) -> u32
    ensures status { result ≤ NO_MEMORY }
    ensures understood { result ≡ UNDERSTOOD
        → IsWritten (Prints input.now true) output.old output.new needed.new }
    ensures not_understood { result ≡ NOT_UNDERSTOOD
        → IsWritten (Prints input.now false) output.old output.new needed.new }
    ensures small { result ≡ OUTPUT_TOO_SMALL
        → IsTooLong (Prints input.now) output.old needed.new }
    ensures utf8 { result ≡ INPUT_NOT_UTF8 → IsUtf8 input.now → ⊥ }
    ensures memory { result ≡ NO_MEMORY → IsUtf8 input.now }
    ensures kept { OUTPUT_TOO_SMALL ≤ result → output.new ≡ output.old }
    ensures none { INPUT_NOT_UTF8 ≤ result → needed.new ≡ 0 }
{
    let Ok(script) = str::from_utf8(input) else {
        return none_needed(INPUT_NOT_UTF8, needed);
    };
    match execute_text(alloc, script) {
        Ok((understood, text)) => put_text(understood, text.as_bytes(), output, needed),
        Err(_) => none_needed(NO_MEMORY, needed),
    }
}
