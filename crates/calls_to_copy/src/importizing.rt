//! Transforming worlds.
use crate::building::{group, item, with_interface, world};
use std::alloc::Global;
use std::fmt::Write;
use wit_resolve_graph::{
    InterfaceId, Resolve, ResolveResult, Shape, Table, UnresolvedPackageGroup, WorldKey,
};

/// The package `foo:api` with an interface `i` and a world `w` that exports it.
fn exporting(alloc: Global) -> ResolveResult<UnresolvedPackageGroup> {
    let i = InterfaceId::from_index(0);
    let mut exports = Table::new(alloc);
    exports.push(WorldKey::Interface(i), item(i))?;
    let mut w = world(alloc, "w")?;
    w.exports = exports;
    let mut package = with_interface(alloc, "api")?;
    package.worlds.push(w)?;
    Ok(group(alloc, package))
}

/// Makes the exports of a world its imports, as the host of a component needs them, and writes the world's name and how
/// much it imports and exports then.
pub fn exports_as_imports(alloc: Global) -> ResolveResult<String> {
    let mut out = String::new(alloc);
    let mut resolve = Resolve::new(alloc);
    let made = exporting(alloc)?;
    if !made.is_shaped(alloc)? {
        out.push_str("a package without its shape\n")?;
        return Ok(out);
    }
    let package = resolve.push_group(alloc, made)?;
    let id = resolve.select_world(alloc, &[package], None)?;
    resolve.importize(alloc, id, None)?;
    for world in resolve.worlds() {
        let name = &world.name;
        let (imports, exports) = (world.imports.len(), world.exports.len());
        writeln!(out, "{name}: {imports} imports, {exports} exports")?;
    }
    Ok(out)
}
