//! The interfaces and worlds of a graph that a picture shows.
ghost use Rattle.std.specs.Prelude.{◌≡◌, ◌<◌, IfOk, length, slice_get};
ghost use Rattle.std.specs.Option.{option_map_or};
ghost use Rattle.witgraph_dot.specs.Shown.{entries_of_picked, interface_has_pick, is_interface_shown, shown_interfaces, shown_worlds, world_has_pick, is_world_shown};
ghost use Rattle.witgraph_dot.specs.steps.Parts.{has_pick};

use crate::choice::{Choice, Pick, is_picked};
use crate::entries::add_interfaces;
use crate::sets::is_one_of;
use std::alloc::{AllocError, Global};
use wit_resolve_graph::{
    Interface, InterfaceId, Package, PackageId, Resolve, Text, World, WorldId,
};

/// Whether one of some picks is of what has this name in the package of this id.
fn has_pick(packages: &[Package], picked: &[Pick], package: PackageId, name: &Text) -> bool
    ensures { result ≡ has_pick packages.now picked.now «package» name.now }
{
    match packages.get(package.index()) {
        Some(owner) => is_picked(picked, &owner.name, name),
        None => false,
    }
}

/// Whether one of some picks is of an interface.
fn interface_has_pick(packages: &[Package], picked: &[Pick], interface: &Interface) -> bool
    ensures { result ≡ interface_has_pick packages.now picked.now interface.now }
{
    match (&interface.package, &interface.name) {
        (Some(package), Some(name)) => has_pick(packages, picked, *package, name),
        _ => false,
    }
}

/// Whether one of some picks is of a world.
fn world_has_pick(packages: &[Package], picked: &[Pick], world: &World) -> bool
    ensures { result ≡ world_has_pick packages.now picked.now world.now }
{
    match &world.package {
        Some(package) => has_pick(packages, picked, *package, &world.name),
        None => false,
    }
}

/// Whether a world is shown: it is picked, or nothing is, and it isn't hidden.
fn is_world_shown(packages: &[Package], choice: &Choice, world: &World) -> bool
    ensures { result ≡ is_world_shown choice.now packages.now world.now }
{
    let picked = choice.shown.as_slice();
    (picked.is_empty() || world_has_pick(packages, picked, world))
        && !world_has_pick(packages, choice.hidden.as_slice(), world)
}

/// Whether an interface is shown: it is picked, or one of those that a picked world imports or exports, or nothing is
/// picked, and it isn't hidden.
fn is_interface_shown(
    packages: &[Package],
    choice: &Choice,
    entries: &[InterfaceId],
    id: InterfaceId,
    interface: &Interface,
) -> bool
    ensures { result ≡ is_interface_shown choice.now packages.now entries.now id interface.now }
{
    let picked = choice.shown.as_slice();
    (picked.is_empty() || interface_has_pick(packages, picked, interface) || is_one_of(entries, id))
        && !interface_has_pick(packages, choice.hidden.as_slice(), interface)
}

/// The interfaces that the worlds which are picked import and export, with repeats.
fn entries_of_picked(
    alloc: Global,
    resolve: &Resolve,
    picked: &[Pick],
) -> Result<Vec<InterfaceId>, AllocError>
    ensures { IfOk result (λ entries.
        entries.items
        ≡ entries_of_picked resolve.now.graph.packages picked.now resolve.now.graph.worlds) }
{
    let mut entries = Vec::new(alloc);
    for world in resolve.worlds() {
        if world_has_pick(resolve.packages(), picked, world) {
            add_interfaces(&world.imports, &mut entries)?;
            add_interfaces(&world.exports, &mut entries)?;
        }
    }
    Ok(entries)
}

/// The interfaces that are shown, in the order of their ids. The only error is want of memory.
pub fn shown_interfaces(
    alloc: Global,
    resolve: &Resolve,
    choice: &Choice,
) -> Result<Vec<InterfaceId>, AllocError>
    ensures { IfOk result (λ shown. shown.items ≡ shown_interfaces choice.now resolve.now.graph) }
{
    let entries = entries_of_picked(alloc, resolve, choice.shown.as_slice())?;
    let mut shown = Vec::new(alloc);
    for (index, interface) in resolve.interfaces().iter().enumerate() {
        let id = InterfaceId::from_index(index);
        if is_interface_shown(resolve.packages(), choice, &entries, id, interface) {
            shown.push(id)?;
        }
    }
    Ok(shown)
}

/// The worlds that are shown, in the order of their ids. The only error is want of memory.
pub fn shown_worlds(
    alloc: Global,
    resolve: &Resolve,
    choice: &Choice,
) -> Result<Vec<WorldId>, AllocError>
    ensures { IfOk result (λ shown. shown.items ≡ shown_worlds choice.now resolve.now.graph) }
{
    let mut shown = Vec::new(alloc);
    for (index, world) in resolve.worlds().iter().enumerate() {
        if is_world_shown(resolve.packages(), choice, world) {
            shown.push(WorldId::from_index(index))?;
        }
    }
    Ok(shown)
}
