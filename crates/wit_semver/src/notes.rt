//! What ids lead to: noted of those that lead somewhere, since most of a graph's lead nowhere.
ghost use Rattle.std.specs.Prelude.{◌≡◌, ◌++◌, ◌∷◌, [], ℕ, List, OnOk, Option};
ghost use Rattle.wit_semver.specs.steps.Replacing.{IsFilled};

use std::alloc::AllocError;
use wit_data::{Id, Table, TryClone};

/// Notes what an id leads to, if anything and if it isn't noted yet.
pub(crate) fn note<S>(
    found: &mut Table<Id<S>, Id<S>>,
    id: &Id<S>,
    to: Option<Id<S>>,
) -> Result<(), AllocError>
    ensures { OnOk result ((f : ℕ → Option ℕ) (ids : List ℕ) → to ≡ f id.now
        → IsFilled f ids found.old → IsFilled f (ids ++ id.now ∷ []) found.new) }
{
    let Some(target) = to else {
        return Ok(());
    };
    if found.contains_key(id) {
        return Ok(());
    }
    found.push(id.try_clone()?, target)?;
    Ok(())
}
