//! Lists of interfaces as sets.
ghost use Rattle.std.specs.Prelude.{◌≡◌, IfOk, filter, nat_eq, not};
ghost use Rattle.std.specs.List.{list_all, list_any};
ghost use Rattle.witgraph_dot.specs.Sets.{are_among, is_one_of, intersection, without};

use std::alloc::{AllocError, Global};
use wit_resolve_graph::{InterfaceId, WorldId};

/// Whether an interface is one of some.
pub fn is_one_of(interfaces: &[InterfaceId], id: InterfaceId) -> bool
    ensures { result ≡ is_one_of interfaces.now id }
{
    interfaces.iter().any(|other| id == *other)
}

/// Whether each of some interfaces is one of others.
pub fn are_among(interfaces: &[InterfaceId], others: &[InterfaceId]) -> bool
    ensures { result ≡ are_among interfaces.now others.now }
{
    interfaces.iter().all(|id| is_one_of(others, *id))
}

/// The interfaces that aren't among others.
pub fn without(
    alloc: Global,
    interfaces: &[InterfaceId],
    others: &[InterfaceId],
) -> Result<Vec<InterfaceId>, AllocError>
    ensures { IfOk result (λ left. left.items ≡ without interfaces.now others.now) }
{
    let mut left = Vec::new(alloc);
    for id in interfaces {
        if !is_one_of(others, *id) {
            left.push(*id)?;
        }
    }
    Ok(left)
}

/// The interfaces that are among others.
pub fn intersection(
    alloc: Global,
    interfaces: &[InterfaceId],
    others: &[InterfaceId],
) -> Result<Vec<InterfaceId>, AllocError>
    ensures { IfOk result (λ left. left.items ≡ intersection interfaces.now others.now) }
{
    let mut left = Vec::new(alloc);
    for id in interfaces {
        if is_one_of(others, *id) {
            left.push(*id)?;
        }
    }
    Ok(left)
}

/// Whether a world is one of some.
pub fn is_world_among(worlds: &[WorldId], id: WorldId) -> bool
    ensures { result ≡ is_one_of worlds.now id }
{
    worlds.iter().any(|other| id == *other)
}
