//! Adding packages.
use crate::building::{group, with_interface, with_user};
use std::alloc::Global;
use std::fmt::Write;
use wit_resolve_graph::{Items, Resolve, ResolveResult, Shape, Span};

/// Adds `foo:dep` and `foo:main`, which uses a type of it, in one call, and writes the packages as they are then.
pub fn two_packages(alloc: Global) -> ResolveResult<String> {
    let mut out = String::new(alloc);
    let dep = group(alloc, with_interface(alloc, "dep")?);
    let main = group(alloc, with_user(alloc, "main", "dep", Span::unknown())?);
    if !dep.is_shaped(alloc)? || !main.is_shaped(alloc)? {
        out.push_str("a package without its shape\n")?;
        return Ok(out);
    }
    let mut deps = Items::new(alloc);
    deps.push(dep)?;
    let mut resolve = Resolve::new(alloc);
    let id = resolve.push_groups(alloc, main, deps)?;
    let place = id.index();
    writeln!(out, "pushed package {place}")?;
    for package in resolve.packages() {
        let name = &package.name;
        writeln!(out, "{name}")?;
    }
    Ok(out)
}
