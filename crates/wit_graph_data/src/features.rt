//! Features that are on.
ghost use Rattle.std.specs.Prelude.{◌≡◌, [], false};

use std::alloc::{AllocError, Global};
use wit_data::TryClone;
use wit_values::NameSet;

/// The features that are on: those that are named, or all.
#[derive(Debug, Drop)]
pub struct Features {
    pub names: NameSet,
    /// Whether all features are on, named or not.
    pub all: bool,
}

impl Features {
    /// No feature, which takes no memory.
    pub fn new(alloc: Global) -> Features
        ensures names { result.names ≡ [] }
        ensures all { result.all ≡ false }
    {
        Features {
            names: NameSet::new(alloc),
            all: false,
        }
    }
}

impl TryClone for Features {
    fn try_clone(&self) -> Result<Features, AllocError> {
        Ok(Features {
            names: self.names.try_clone()?,
            all: self.all,
        })
    }
}
