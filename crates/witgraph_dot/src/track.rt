//! Interfaces at several versions.
ghost use Rattle.std.specs.Prelude.{◌≡◌, IfOk};
ghost use Rattle.std.specs.List.{list_any};
ghost use Rattle.witgraph_dot.specs.Tracks.{are_of_one_base, stand_on_one_track, are_versions_by_name, is_version_of_any, are_versions_of_one};

use crate::names::full_name;
use std::alloc::{AllocError, Global};
use wit_resolve_graph::{InterfaceId, PackageName, Resolve, TrackRule, Version};

/// Whether both versions are there and stand on one track. The only error is want of memory.
fn have_one_track(
    alloc: Global,
    rule: TrackRule,
    one: &Option<Version>,
    other: &Option<Version>,
) -> Result<bool, AllocError>
    ensures { IfOk result (λ are. are ≡ stand_on_one_track rule one.now other.now) }
{
    match (one, other) {
        (Some(one), Some(other)) => {
            let one = PackageName::track_by(alloc, one, rule)?;
            let other = PackageName::track_by(alloc, other, rule)?;
            Ok(one == other)
        }
        _ => Ok(false),
    }
}

/// Whether two packages have one namespace and one name.
fn are_of_one_base(one: &PackageName, other: &PackageName) -> bool
    ensures { result ≡ are_of_one_base one.now other.now }
{
    one.namespace == other.namespace && one.name == other.name
}

/// Whether two interfaces are one but for the version, and their versions stand on one track. The only error is want of
/// memory.
fn are_versions_of_one(
    alloc: Global,
    resolve: &Resolve,
    one: InterfaceId,
    other: InterfaceId,
) -> Result<bool, AllocError>
    ensures { IfOk result
        (λ are. are ≡ are_versions_of_one resolve.now.track_rule resolve.now.graph one other) }
{
    match (full_name(resolve, one), full_name(resolve, other)) {
        (Some((one, name)), Some((other, other_name))) => {
            let are_one = name == other_name && are_of_one_base(one, other);
            let on_track = have_one_track(
                alloc,
                resolve.track_rule(),
                &one.version,
                &other.version,
            )?;
            Ok(are_one && on_track)
        }
        _ => Ok(false),
    }
}

/// Whether an interface is one but for the version with one of some, and their versions stand on one track. The only
/// error is want of memory.
pub fn is_version_of_any(
    alloc: Global,
    resolve: &Resolve,
    some: &[InterfaceId],
    id: InterfaceId,
) -> Result<bool, AllocError>
    ensures { IfOk result
        (λ is. is ≡ is_version_of_any resolve.now.track_rule resolve.now.graph some.now id) }
{
    for other in some {
        if are_versions_of_one(alloc, resolve, id, *other)? {
            return Ok(true);
        }
    }
    Ok(false)
}
