//! Ids in order, and the ids that follow those of a list.
ghost use Rattle.std.specs.Prelude.{◌≡◌, ℕ, ◌+◌, ◌<◌, ◌^◌, IfOk, length, nat_eq};
ghost use Rattle.std.specs.List.{list_any};
ghost use Rattle.std.specs.List.Sorted.{IsStrictlySortedBy};
ghost use Rattle.std.specs.Ordering.{nat_cmp};
ghost use Rattle.wit_link_include.specs.steps.Included.{numbered};

use std::alloc::{AllocError, Global};
use wit_data::{Id, Items, Table, TryClone};

/// Ids in order, each once.
pub(crate) fn in_order<S>(ids: Items<Id<S>>) -> Result<Items<Id<S>>, AllocError>
    ensures rising { IfOk result (λ sorted. IsStrictlySortedBy nat_cmp sorted) }
    ensures members { IfOk result
        (λ sorted. (x : ℕ) → list_any (nat_eq x) sorted ≡ list_any (nat_eq x) ids) }
{
    let mut ids = ids.into_vec();
    ids.sort()?;
    ids.dedup();
    Ok(Items::from_vec(ids))
}

/// Each of some ids with the id that it goes to: the first one, and then those that follow.
pub(crate) fn numbered<S>(
    alloc: Global,
    ids: &[Id<S>],
    first: usize,
) -> Result<Table<Id<S>, Id<S>>, AllocError>
    requires rising { IsStrictlySortedBy nat_cmp ids.now }
    requires room { first + length ids.now < 2 ^ 64 }
    ensures { IfOk result (λ table. table ≡ numbered first ids.now) }
{
    let mut table = Table::new(alloc);
    for (place, id) in ids.iter().enumerate() {
        table.push(id.try_clone()?, Id::from_index(first + place))?;
    }
    Ok(table)
}
