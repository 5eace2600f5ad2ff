//! Calls whose contract a caller hands on.
ghost use Rattle.std.specs.Prelude.{◌≡◌, [], None, IfOk, IfSome, OnErr};
ghost use Rattle.wit_resolve_graph.specs.Step.{PushesGroups};

use crate::building::{group, with_interface};
use std::alloc::Global;
use std::fmt::Write;
use wit_resolve_graph::{PackageId, Resolve, ResolveResult, Shape, UnresolvedPackageGroup};

/// Adds a group of packages where it has its shape, and answers its main package's id; None where it hasn't.
pub fn push_if_shaped(
    alloc: Global,
    resolve: &mut Resolve,
    group: UnresolvedPackageGroup,
) -> ResolveResult<Option<PackageId>>
    ensures pushed { IfOk result
        (λ id. IfSome id (λ id. PushesGroups resolve.old group [] id resolve.new)) }
    ensures not_shaped { IfOk result (λ id. id ≡ None → resolve.new ≡ resolve.old) }
    ensures unchanged { OnErr result (resolve.new.graph ≡ resolve.old.graph) }
{
    if !group.is_shaped(alloc)? {
        return Ok(None);
    }
    Ok(Some(resolve.push_group(alloc, group)?))
}

/// Adds the package `foo:a` so, and writes at which id.
pub fn a_package(alloc: Global) -> ResolveResult<String> {
    let mut out = String::new(alloc);
    let mut resolve = Resolve::new(alloc);
    let made = group(alloc, with_interface(alloc, "a")?);
    if let Some(id) = push_if_shaped(alloc, &mut resolve, made)? {
        let place = id.index();
        writeln!(out, "package {place}")?;
    }
    Ok(out)
}
