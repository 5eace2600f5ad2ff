//! Reading worlds.
use crate::building::{group, item, with_interface, world};
use std::alloc::Global;
use std::fmt::Write;
use wit_resolve_graph::{
    InterfaceId, Resolve, ResolveResult, Shape, Table, UnresolvedPackageGroup, World, WorldItem,
    WorldKey,
};

/// The package `foo:api` with an interface `i` and a world `w` that imports it.
fn importing(alloc: Global) -> ResolveResult<UnresolvedPackageGroup> {
    let i = InterfaceId::from_index(0);
    let mut imports = Table::new(alloc);
    imports.push(WorldKey::Interface(i), item(i))?;
    let mut w = world(alloc, "w")?;
    w.imports = imports;
    let mut package = with_interface(alloc, "api")?;
    package.worlds.push(w)?;
    Ok(group(alloc, package))
}

/// Adds a package, chooses its world, and writes what that imports.
pub fn imports(alloc: Global) -> ResolveResult<String> {
    let mut out = String::new(alloc);
    let mut resolve = Resolve::new(alloc);
    let made = importing(alloc)?;
    if !made.is_shaped(alloc)? {
        out.push_str("a package without its shape\n")?;
        return Ok(out);
    }
    let package = resolve.push_group(alloc, made)?;
    let id = resolve.select_world(alloc, &[package], None)?;
    if let Some(world) = resolve.worlds().get(id.index()) {
        write_imports(alloc, &resolve, world, &mut out)?;
    }
    Ok(out)
}

/// Writes what a world imports: interfaces by their id texts, functions and types by their labels.
fn write_imports(
    alloc: Global,
    resolve: &Resolve,
    world: &World,
    out: &mut String,
) -> ResolveResult<()> {
    for (key, item) in world.imports.iter() {
        let name = resolve.name_world_key(alloc, key)?;
        let sort = match item {
            WorldItem::Interface { .. } => "interface",
            WorldItem::Function(_) => "function",
            WorldItem::Type_ { .. } => "type",
        };
        writeln!(out, "{sort} {name}")?;
    }
    Ok(())
}
