//! The interfaces that a world imports and exports under their own ids.
ghost use Rattle.std.specs.Prelude.{◌≡◌, ◌++◌, IfOk, OnOk, slice_get};
ghost use Rattle.wit_data.specs.Entries.{interfaces_of_entries};
ghost use Rattle.wit_elaboration.specs.Entries.{keyed_interfaces};
ghost use Rattle.witgraph_dot.specs.Entries.{own_exports, own_imports};

use std::alloc::{AllocError, Global};
use wit_resolve_graph::{InterfaceId, Resolve, Table, WorldId, WorldItem, WorldKey};

/// The interfaces of entries under their own ids.
fn own_interfaces(
    alloc: Global,
    entries: &Table<WorldKey, WorldItem>,
) -> Result<Vec<InterfaceId>, AllocError>
    ensures { IfOk result (λ interfaces. interfaces.items ≡ keyed_interfaces entries.now) }
{
    let mut interfaces = Vec::new(alloc);
    for (key, _) in entries.iter() {
        if let WorldKey::Interface(id) = key {
            interfaces.push(*id)?;
        }
    }
    Ok(interfaces)
}

/// Adds the interfaces of entries, under whatever keys.
pub fn add_interfaces(
    entries: &Table<WorldKey, WorldItem>,
    interfaces: &mut Vec<InterfaceId>,
) -> Result<(), AllocError>
    ensures { OnOk result
        (interfaces.new.items ≡ interfaces.old.items ++ interfaces_of_entries entries.now) }
{
    for (_, item) in entries.iter() {
        if let WorldItem::Interface { id, .. } = item {
            interfaces.push(*id)?;
        }
    }
    Ok(())
}

/// Those that a world imports.
pub fn own_imports(
    alloc: Global,
    resolve: &Resolve,
    world: WorldId,
) -> Result<Vec<InterfaceId>, AllocError>
    ensures { IfOk result (λ interfaces.
        interfaces.items ≡ own_imports (slice_get resolve.now.graph.worlds world)) }
{
    match resolve.worlds().get(world.index()) {
        Some(world) => own_interfaces(alloc, &world.imports),
        None => Ok(Vec::new(alloc)),
    }
}

/// Those that a world exports.
pub fn own_exports(
    alloc: Global,
    resolve: &Resolve,
    world: WorldId,
) -> Result<Vec<InterfaceId>, AllocError>
    ensures { IfOk result (λ interfaces.
        interfaces.items ≡ own_exports (slice_get resolve.now.graph.worlds world)) }
{
    match resolve.worlds().get(world.index()) {
        Some(world) => own_interfaces(alloc, &world.exports),
        None => Ok(Vec::new(alloc)),
    }
}
