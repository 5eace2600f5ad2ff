//! Where the interfaces and worlds of a package go. All that is of other packages and is active has been found,
//! so what is active and isn't found is the package's own.
ghost use Rattle.std.specs.Prelude.{◌≡◌, IfOk, OnOk, length};
ghost use Rattle.wit_link_spec.specs.facts.RankFacts.{after};
ghost use Rattle.wit_link_lookup.specs.steps.ForeignItems.{assigned_ids, goes, has_new_id};

use std::alloc::{AllocError, Global};
use wit_data::{Id, Items, TryClone};
use wit_link_spec::next_new_id;

/// Where the things of one sort go, by which are active and what is found of each: what is active goes to what is
/// found of it, or, if it is the package's own, to the next id. The ids begin at `first`.
pub(crate) fn assign_ids<S>(
    alloc: Global,
    active: &Items<bool>,
    found: &Items<Option<Id<S>>>,
    first: usize,
) -> Result<Items<Option<Id<S>>>, AllocError>
    requires { length active.now ≡ length found.now }
    ensures { IfOk result (λ ids. ids ≡ assigned_ids first active.now found.now) }
{
    let mut ids = Items::new(alloc);
    let mut next = first;
    for index in 0..found.len() {
        let is_active = *active.at(index);
        let there = found.at(index).try_clone()?;
        ids.push(assign_id(is_active, there, &mut next)?)?;
    }
    Ok(ids)
}

/// Where one thing goes: nowhere if it isn't active, to what is found of it, or to the next id, which is then
/// one further on. An id past the last says that memory is wanting.
pub(crate) fn assign_id<S>(
    active: bool,
    found: Option<Id<S>>,
    next: &mut usize,
) -> Result<Option<Id<S>>, AllocError>
    ensures id { IfOk result (λ id. id ≡ goes active found next.old) }
    ensures next { OnOk result (next.new ≡ after (has_new_id active found) next.old) }
{
    if active {
        Ok(Some(next_new_id(found, next)?))
    } else {
        Ok(None)
    }
}
