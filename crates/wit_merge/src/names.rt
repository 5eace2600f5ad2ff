//! Tables that take the names of what moves.
ghost use Rattle.std.specs.Prelude.{◌≡◌, ◌++◌, IfOk, OnOk};
ghost use Rattle.wit_values.specs.Table.{HasDistinctKeys};
ghost use Rattle.wit_merge_match.specs.steps.Matched.{moves};
ghost use Rattle.wit_remap.specs.steps.Movers.{goes};
ghost use Rattle.wit_merge.specs.steps.MergeSteps.{moved_names};

use std::alloc::AllocError;
use wit_data::{Id, Items, Names, TryClone};

/// Whether the thing of an id moves, by what is found of all: it is matched with none.
pub(crate) fn moves<S>(found: &Items<Option<Id<S>>>, index: usize) -> bool
    ensures { result ≡ moves found.now index }
{
    match found.get(index) {
        Some(Some(_)) => false,
        Some(None) => true,
        None => true,
    }
}

/// What a thing is remapped to. One that isn't there stays.
fn goes<S>(new_ids: &Items<Option<Id<S>>>, id: &Id<S>) -> Result<Id<S>, AllocError>
    ensures { IfOk result (λ place. place ≡ goes new_ids.now id.now) }
{
    match new_ids.get(id.try_clone()?.index()) {
        Some(Some(new)) => new.try_clone(),
        _ => id.try_clone(),
    }
}

/// Adds those entries of another table whose things move, with what these are remapped to.
pub(crate) fn push_moved<S>(
    into: &mut Names<Id<S>>,
    from: &Names<Id<S>>,
    found: &Items<Option<Id<S>>>,
    new_ids: &Items<Option<Id<S>>>,
) -> Result<(), AllocError>
    requires { HasDistinctKeys (into.old ++ moved_names found.now new_ids.now from.now) }
    ensures { OnOk result (into.new ≡ into.old ++ moved_names found.now new_ids.now from.now) }
{
    let alloc = into.allocator();
    for (name, id) in from.iter() {
        if moves(found, id.try_clone()?.index()) {
            into.push(String::from_str(alloc, name)?, goes(new_ids, id)?)?;
        }
    }
    Ok(())
}
