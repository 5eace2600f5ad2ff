//! Where what a push adds lacks its shape.
ghost use Rattle.std.specs.Prelude.{IfOk};
ghost use Rattle.wit_json_commands.specs.steps.Searching.{TellsChange, TellsDeps, TellsGroup, TellsNested, TellsPush};

use crate::replies::Unshaped;
use std::alloc::{AllocError, Global};
use wit_commands::Change;
use wit_resolve_graph::{ShapeFault, UnresolvedPackage, UnresolvedPackageGroup, find_shape_fault};

/// The first package that a change would add without its shape, and what it lacks first. None where all have theirs.
pub fn find_unshaped(alloc: Global, change: &Change) -> Result<Option<Unshaped>, AllocError>
    ensures { IfOk result (λ found. TellsChange change.now found) }
{
    match change {
        Change::PushGroups { main, deps } => find_in_push(alloc, main, deps.as_slice()),
        _ => Ok(None),
    }
}

/// The same of a main group and those that come with it.
fn find_in_push(
    alloc: Global,
    main: &UnresolvedPackageGroup,
    deps: &[UnresolvedPackageGroup],
) -> Result<Option<Unshaped>, AllocError>
    ensures { IfOk result (λ found. TellsPush main.now deps.now found) }
{
    match find_in_group(alloc, main)? {
        Some((package, fault)) => Ok(Some(Unshaped {
            group: None,
            package,
            fault,
        })),
        None => find_in_deps(alloc, deps),
    }
}

/// The same of groups that come with a main one.
fn find_in_deps(
    alloc: Global,
    deps: &[UnresolvedPackageGroup],
) -> Result<Option<Unshaped>, AllocError>
    ensures { IfOk result (λ found. TellsDeps deps.now found) }
{
    for (index, group) in deps.iter().enumerate() {
        if let Some((package, fault)) = find_in_group(alloc, group)? {
            return Ok(Some(Unshaped {
                group: Some(index),
                package,
                fault,
            }));
        }
    }
    Ok(None)
}

/// The first package of a group that lacks its shape, its main one or a nested one by its index, and what it lacks first.
fn find_in_group(
    alloc: Global,
    group: &UnresolvedPackageGroup,
) -> Result<Option<(Option<usize>, ShapeFault)>, AllocError>
    ensures { IfOk result (λ found. TellsGroup group.now found) }
{
    if let Some(fault) = find_shape_fault(alloc, &group.main)? {
        return Ok(Some((None, fault)));
    }
    match find_among(alloc, group.nested.as_slice())? {
        Some((index, fault)) => Ok(Some((Some(index), fault))),
        None => Ok(None),
    }
}

/// The index of the first of some packages that lacks its shape, and what it lacks first.
fn find_among(
    alloc: Global,
    packages: &[UnresolvedPackage],
) -> Result<Option<(usize, ShapeFault)>, AllocError>
    ensures { IfOk result (λ found. TellsNested packages.now found) }
{
    for (index, package) in packages.iter().enumerate() {
        if let Some(fault) = find_shape_fault(alloc, package)? {
            return Ok(Some((index, fault)));
        }
    }
    Ok(None)
}
