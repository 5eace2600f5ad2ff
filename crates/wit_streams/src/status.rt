//! The status with which a program ends.
ghost use Rattle.std.specs.Prelude.{◌≡◌};
ghost use Rattle.wit_streams.specs.Status.{exit_status};

use crate::fault::StreamFault;

/// The exit status of a program: 0 where its input was understood and the answer is written, else 1.
pub fn exit_status(executed: Result<bool, StreamFault>) -> u8
    ensures { result ≡ exit_status executed }
{
    match executed {
        Ok(true) => 0,
        Ok(false) => 1,
        Err(_) => 1,
    }
}
