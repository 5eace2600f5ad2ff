//! Why there is no answer to what a program reads.
ghost use Rattle.std.specs.Prelude.{◌≡◌};

use std::alloc::AllocError;

/// Why there is no answer to an input.
#[derive(Clone, Copy, Debug, PartialEq, Eq)]
pub enum StreamFault {
    /// A call of the reader failed.
    Read,
    /// A call of the writer failed, or took none of some bytes.
    Write,
    /// The input isn't UTF-8.
    NotUtf8,
    /// A growth outside a command was refused.
    OutOfMemory,
}

impl From<AllocError> for StreamFault {
    ghost use Rattle.wit_streams.specs.declared.fault.StreamFault.TheVariants as stream_fault;

    ghost from_gives = { λ _ fault. fault ≡ stream_fault.OutOfMemory };

    fn from(_error: AllocError) -> StreamFault {
        StreamFault::OutOfMemory
    }
}
