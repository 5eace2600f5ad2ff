//! Why a script can't be read.
ghost use Rattle.std.specs.Prelude.{◌≡◌};

use std::alloc::AllocError;

/// Why a script can't be read.
#[derive(Clone, Copy, Debug, PartialEq, Eq)]
pub enum ReadFault {
    /// This line, counted from 1, is the first that isn't understood; or all are, but packages wait for
    /// their `push`, or an `other` for its `merge`, and it is the last that says something.
    NotUnderstood { line: usize },
    OutOfMemory,
}

impl From<AllocError> for ReadFault {
    ghost use Rattle.wit_script.specs.declared.fault.ReadFault.TheVariants as read_fault;

    ghost from_gives = { λ _ fault. fault ≡ read_fault.OutOfMemory };

    fn from(_error: AllocError) -> ReadFault {
        ReadFault::OutOfMemory
    }
}
