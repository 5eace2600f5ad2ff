//! With what each thing of a graph is matched.
ghost use Rattle.std.specs.Prelude.{◌≡◌, IfOk};
ghost use Rattle.wit_merge.specs.steps.MergeSteps.{firsts_from};

use std::alloc::{AllocError, Global};
use wit_data::{Id, Items, TryClone};

/// For each of so many things of a graph the first thing of another that is matched with it, by what is found of each
/// of these.
pub(crate) fn counterparts<S>(
    alloc: Global,
    found: &Items<Option<Id<S>>>,
    count: usize,
) -> Result<Items<Option<usize>>, AllocError>
    ensures { IfOk result (λ counterparts. counterparts ≡ firsts_from 0 found.now count) }
{
    let mut counterparts = Items::from_vec(vec![in alloc; None; count]?);
    for index in (0..found.len()).rev() {
        if let Some(id) = found.at(index) {
            let place = id.try_clone()?.index();
            if place < count {
                counterparts.set(place, Some(index));
            }
        }
    }
    Ok(counterparts)
}
