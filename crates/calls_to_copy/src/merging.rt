//! Merging graphs.
use crate::building::{group, with_interface};
use std::alloc::Global;
use std::fmt::Write;
use wit_resolve_graph::{Resolve, ResolveResult, Shape};

/// A `Resolve` with the package `foo:NAME`, None where that hasn't its shape.
fn resolve_with(alloc: Global, name: &str) -> ResolveResult<Option<Resolve>> {
    let made = group(alloc, with_interface(alloc, name)?);
    if !made.is_shaped(alloc)? {
        return Ok(None);
    }
    let mut resolve = Resolve::new(alloc);
    let _id = resolve.push_group(alloc, made)?;
    Ok(Some(resolve))
}

/// Merges a graph with `foo:b` into one with `foo:a`, and writes where its interface is then.
pub fn two_graphs(alloc: Global) -> ResolveResult<String> {
    let mut out = String::new(alloc);
    let (Some(mut resolve), Some(other)) = (resolve_with(alloc, "a")?, resolve_with(alloc, "b")?)
    else {
        out.push_str("a package without its shape\n")?;
        return Ok(out);
    };
    let remap = resolve.merge(alloc, other)?;
    for id in remap.interfaces().iter().flatten() {
        if let Some(name) = resolve.id_of(alloc, *id)? {
            let place = id.index();
            writeln!(out, "interface {place} is {name}")?;
        }
    }
    Ok(out)
}
