//! Where all things of another graph go.
ghost use Rattle.std.specs.Prelude.{◌≡◌, IfOk, Some, length, map};
ghost use Rattle.std.specs.List.{range_with_len};
ghost use Rattle.wit_merge_match.specs.steps.Matched.{AreMatches, merge_of_graphs, merge_ids_of, new_id_from};

use crate::matches::Matches;
use std::alloc::{AllocError, Global};
use wit_data::{Id, Items, PackageId, TryClone};
use wit_graph_data::Graph;
use wit_link_spec::{NewIds, next_new_id};

/// Where the things of another graph go, by their ids there: what is matched to the one with which it is, all else to
/// the next ids, in its order.
#[derive(Drop)]
pub struct MergeIds {
    pub new_ids: NewIds,
    pub packages: Items<PackageId>,
}

/// Where the things of the other graph go, by the matches of the two graphs. The only error is want of memory.
/// The contract alone names `other`: the matches have an entry for each of its things.
///
/// Source: `merge` of wit-parser 0.263.0.
pub fn find_ids(
    alloc: Global,
    graph: &Graph,
    other: &Graph,
    matches: &Matches,
) -> Result<MergeIds, AllocError>
    requires { AreMatches graph.now other.now matches.now }
    ensures { IfOk result
        (λ merge_ids. merge_ids ≡ merge_ids_of (merge_of_graphs graph.now other.now)) }
{
    let new_ids = NewIds {
        types: new_ids(alloc, &matches.types, graph.types.len())?,
        interfaces: new_ids(alloc, &matches.interfaces, graph.interfaces.len())?,
        worlds: new_ids(alloc, &matches.worlds, graph.worlds.len())?,
    };
    let packages = package_ids(alloc, &matches.packages, graph.packages.len())?;
    Ok(MergeIds { new_ids, packages })
}

/// Where each of some things goes.
fn new_ids<S>(
    alloc: Global,
    found: &Items<Option<Id<S>>>,
    first: usize,
) -> Result<Items<Option<Id<S>>>, AllocError>
    ensures { IfOk result (λ new_ids.
        new_ids
        ≡ map (λ i. Some (new_id_from found.now first i))
        (range_with_len 0 (length found.now))) }
{
    let mut new_ids = Items::new(alloc);
    let mut next = first;
    for there in found.as_slice() {
        let there = there.try_clone()?;
        new_ids.push(Some(next_new_id(there, &mut next)?))?;
    }
    Ok(new_ids)
}

/// Where each package goes.
fn package_ids(
    alloc: Global,
    found: &Items<Option<PackageId>>,
    first: usize,
) -> Result<Items<PackageId>, AllocError>
    ensures { IfOk result (λ new_ids.
        new_ids ≡ map (new_id_from found.now first) (range_with_len 0 (length found.now))) }
{
    let mut new_ids = Items::new(alloc);
    let mut next = first;
    for there in found.as_slice() {
        let there = there.try_clone()?;
        new_ids.push(next_new_id(there, &mut next)?)?;
    }
    Ok(new_ids)
}
