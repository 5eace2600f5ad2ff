//! Stabilities that are joined.
ghost use Rattle.std.specs.Prelude.{◌≡◌, OnOk};
ghost use Rattle.wit_remap_spec.specs.Joined.{joined_stability};

use std::alloc::AllocError;
use wit_data::{Stability, TryClone};

/// Joins a stability to one: one that is known takes its place.
pub(crate) fn join_stability(into: &mut Stability, from: &Stability) -> Result<(), AllocError>
    ensures { OnOk result (into.new ≡ joined_stability from.now into.old) }
{
    if !from.is_unknown() {
        *into = from.try_clone()?;
    }
    Ok(())
}
