//! From the bytes of a script to its answers.
ghost use Rattle.std.specs.Prelude.{◌≡◌, ◌⊎◌, [], Bool, List, ℕ, true, IfErr, IfOk, IfSome, OnOk, IsErrOf, string_bytes};
ghost use Rattle.std.specs.Str.{IsUtf8};
ghost use Rattle.std.specs.Io.KnownBytes.{Appends};
ghost use Rattle.wit_script.specs.Prints.{Prints};
ghost use Rattle.wit_streams.specs.Watched.{AppendsBeginning};

use crate::answer::answers_to;
use crate::fault::ReadFault;
use crate::reader::read_script;
use std::alloc::{AllocError, Global};
use std::io::{Read, Write};
use wit_streams::{StreamFault as ScriptFault, Watched, read_all, write_all};

/// Reads a script to the end of the reader, runs it on an empty graph, and writes its answers. A script
/// that isn't understood is answered by one line and not run, and the answer is then false.
///
/// The faults are a failed call of the reader or the writer, an input that isn't UTF-8, and want of
/// memory outside a command. The clauses speak of readers and writers that tell their bytes. Where the
/// writer fails, a beginning of what was to be written is; after any other fault nothing is. Once the
/// reader has told its end, an input that isn't UTF-8 is told as that, whatever memory there is.
pub fn execute<R: Read, W: Write>(
    alloc: Global,
    reader: &mut Watched<R>,
    writer: &mut Watched<W>,
) -> Result<bool, ScriptFault>
    ensures ok { IfOk result (λ understood. IfSome (R.remaining reader.old.inner) (λ input.
        (text : List ℕ) × Prints input understood text × Appends (W.contents writer.old.inner)
        (W.contents writer.new.inner) text)) }
    ensures cut { IsErrOf result ScriptFault.Write → IfSome (R.remaining reader.old.inner) (λ input.
        (understood : Bool) × (text : List ℕ) × Prints input understood text
        × AppendsBeginning (W.contents writer.old.inner) (W.contents writer.new.inner) text) }
    ensures untouched { IfErr result
        (λ fault. (fault ≡ ScriptFault.Write) ⊎ (writer.new ≡ writer.old)) }
    ensures end { OnOk result (IfSome (R.remaining reader.new.inner) (λ rest. rest ≡ [])) }
    ensures read { IsErrOf result ScriptFault.Read → reader.new.failed ≡ true }
    ensures write { IsErrOf result ScriptFault.Write → writer.new.failed ≡ true }
    ensures utf8 { IsErrOf result ScriptFault.NotUtf8
        → IfSome (R.remaining reader.old.inner) (λ input. IsUtf8 input → ⊥) }
    ensures memory { IsErrOf result ScriptFault.OutOfMemory
        → (reader.new.ended ≡ reader.old.ended) ⊎ IfSome (R.remaining reader.old.inner) IsUtf8 }
{
    let input = read_all(alloc, reader)?;
    let (understood, text) = printed(alloc, &input)?;
    write_all(writer, &text)?;
    Ok(understood)
}

/// What an input prints as a script, and whether it is understood. An input that isn't UTF-8 is told as that, whatever
/// memory there is.
fn printed(alloc: Global, input: &[u8]) -> Result<(bool, String), ScriptFault>
    ensures ok { IfOk result (λ answer. Prints input.now answer.0 (string_bytes answer.1)) }
    ensures read { IsErrOf result ScriptFault.Read → ⊥ }
    ensures write { IsErrOf result ScriptFault.Write → ⊥ }
    ensures utf8 { IsErrOf result ScriptFault.NotUtf8 → IsUtf8 input.now → ⊥ }
    ensures memory { IsErrOf result ScriptFault.OutOfMemory → IsUtf8 input.now }
{
    match str::from_utf8(input) {
        Ok(script) => Ok(execute_text(alloc, script)?),
        Err(_) => Err(ScriptFault::NotUtf8),
    }
}

/// Runs a script on an empty graph: whether it is understood, and what it prints. The only error is want of memory outside
/// a command.
pub fn execute_text(alloc: Global, script: &str) -> Result<(bool, String), AllocError>
    ensures { IfOk result (λ answer. Prints script.now answer.0 (string_bytes answer.1)) }
{
    match read_script(alloc, script) {
        Ok(commands) => Ok((true, answers_to(alloc, commands)?)),
        Err(ReadFault::NotUnderstood { line }) => Ok((
            false,
            format!(in alloc; "line {line}: not understood\n")?,
        )),
        Err(ReadFault::OutOfMemory) => Err(AllocError),
    }
}
