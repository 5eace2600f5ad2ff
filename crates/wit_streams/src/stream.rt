//! All bytes of a reader, and bytes to a writer.
ghost use Rattle.std.specs.Prelude.{◌≡◌, [], true, IfSome, OnOk, OnErr, IfErr, IfOk, IsErrOf};
ghost use Rattle.std.specs.Io.KnownBytes.{Appends};
ghost use Rattle.wit_streams.specs.Watched.{AppendsBeginning};

use crate::fault::StreamFault;
use crate::watched::Watched;
use std::alloc::Global;
use std::io::{Read, Write};

/// All bytes of a reader up to its end. The faults are a failed call of the reader, and want of memory before the reader
/// has told its end.
pub fn read_all<R: Read>(alloc: Global, reader: &mut Watched<R>) -> Result<Vec<u8>, StreamFault>
    ensures ok { IfOk result
        (λ v. IfSome (R.remaining reader.old.inner) (λ input. v.items ≡ input)) }
    ensures end { OnOk result (IfSome (R.remaining reader.new.inner) (λ rest. rest ≡ [])) }
    ensures read { IsErrOf result StreamFault.Read → reader.new.failed ≡ true }
    ensures write { IsErrOf result StreamFault.Write → ⊥ }
    ensures utf8 { IsErrOf result StreamFault.NotUtf8 → ⊥ }
    ensures memory { IsErrOf result StreamFault.OutOfMemory → reader.new.ended ≡ reader.old.ended }
{
    let mut bytes = Vec::new(alloc);
    let mut chunk = [0u8; 4096];
    for _turn in 0..u64::MAX {
        match reader.read(&mut chunk) {
            Ok(0) => return Ok(bytes),
            Ok(count) => bytes.extend_from_slice(&chunk[..count])?,
            Err(_) => return Err(StreamFault::Read),
        }
    }
    Err(StreamFault::OutOfMemory)
}

/// Writes all bytes of a text, and has the writer pass them on. The only fault is a failed call of the
/// writer; a beginning of the text may be written then.
pub fn write_all<W: Write>(writer: &mut Watched<W>, text: &str) -> Result<(), StreamFault>
    ensures ok { OnOk result
        (Appends (W.contents writer.old.inner) (W.contents writer.new.inner) text.now) }
    ensures cause { IfErr result (λ e. (e ≡ StreamFault.Write) × (writer.new.failed ≡ true)) }
    ensures cut { OnErr result
        (AppendsBeginning (W.contents writer.old.inner) (W.contents writer.new.inner) text.now) }
{
    let bytes = text.as_bytes();
    let mut at = 0;
    while at < bytes.len() {
        match writer.write(&bytes[at..]) {
            Ok(0) => return Err(StreamFault::Write),
            Ok(count) => at += count,
            Err(_) => return Err(StreamFault::Write),
        }
    }
    match writer.flush() {
        Ok(()) => Ok(()),
        Err(_) => Err(StreamFault::Write),
    }
}
