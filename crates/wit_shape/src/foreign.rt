//! What a package knows of other packages.
ghost use Rattle.std.specs.Prelude.{◌≡◌, ◌↔◌, IfOk, IsTrue};
ghost use Rattle.wit_data.specs.Foreign.{IsForeign, IsNameOnly};
ghost use Rattle.wit_shape.specs.Faults.{FindsMisplaced, Tells};
ghost use Rattle.wit_shape.specs.First.{FindsFirst};
ghost use Rattle.wit_shape.specs.declared.clause.ShapeClause.TheVariants.{ForeignBare, ForeignInterfaces, ForeignSpans, ForeignWorlds};
ghost use Rattle.wit_data.specs.steps.Parts.{IsNameOnlyInterface, IsNameOnlyWorld};

use crate::names::{has_name, is_text};
use crate::place::ShapePlace;
use std::alloc::{AllocError, Global};
use wit_data::{
    AstItem, Interface, InterfaceId, Stability, UnresolvedPackage, World, WorldId,
    foreign_interfaces, foreign_worlds,
};
use wit_digraph::Listing;
use wit_values::{Items, Names};

/// The spans of the other packages, where there isn't one for each.
pub(crate) fn spans(unresolved: &UnresolvedPackage) -> Option<ShapePlace>
    ensures { Tells unresolved.now ForeignSpans result }
{
    if unresolved.foreign_dep_spans.len() == unresolved.foreign_deps.len() {
        None
    } else {
        Some(ShapePlace::ForeignDepSpans)
    }
}

/// The first interface of another package that isn't one of the first ones, or is named again.
pub(crate) fn interfaces(
    alloc: Global,
    unresolved: &UnresolvedPackage,
) -> Result<Option<ShapePlace>, AllocError>
    ensures { IfOk result (λ found. Tells unresolved.now ForeignInterfaces found) }
{
    let ids = foreign_interfaces(alloc, &unresolved.foreign_deps)?;
    let found = misplaced_id(alloc, ids.as_slice(), unresolved.interfaces.len())?;
    Ok(found.map(|id| ShapePlace::Interface(InterfaceId::from_index(id))))
}

/// The same of worlds.
pub(crate) fn worlds(
    alloc: Global,
    unresolved: &UnresolvedPackage,
) -> Result<Option<ShapePlace>, AllocError>
    ensures { IfOk result (λ found. Tells unresolved.now ForeignWorlds found) }
{
    let ids = foreign_worlds(alloc, &unresolved.foreign_deps)?;
    let found = misplaced_id(alloc, ids.as_slice(), unresolved.worlds.len())?;
    Ok(found.map(|id| ShapePlace::World(WorldId::from_index(id))))
}

/// Of ids that are to name the first things of a list of so many things, each once, the first that doesn't.
fn misplaced_id(alloc: Global, ids: &[usize], count: usize) -> Result<Option<usize>, AllocError>
    ensures { IfOk result (λ found. FindsMisplaced (λ id. id) ids.now count found) }
{
    let bound = count.min(ids.len());
    let mut met = Listing::new(alloc, ids.len())?;
    for id in ids {
        if *id >= bound {
            return Ok(Some(*id));
        }
        if met.has(*id) {
            return Ok(Some(*id));
        }
        met.push(*id)?;
    }
    Ok(None)
}

/// The first item of another package that isn't there under its name, holds something or is named under no gate.
pub(crate) fn items(unresolved: &UnresolvedPackage) -> Option<ShapePlace>
    ensures { Tells unresolved.now ForeignBare result }
{
    let interfaces = unresolved.interfaces.as_slice();
    let worlds = unresolved.worlds.as_slice();
    for package in 0..unresolved.foreign_deps.len() {
        let (_, named) = unresolved.foreign_deps.entry_at(package);
        if let Some(index) = item_that_is_not_bare(interfaces, worlds, named) {
            return Some(ShapePlace::ForeignItem(package, index));
        }
    }
    None
}

fn item_that_is_not_bare(
    interfaces: &[Interface],
    worlds: &[World],
    named: &Names<(AstItem, Items<Stability>)>,
) -> Option<usize>
    ensures { FindsFirst (λ i. i) (λ _. IsForeign interfaces.now worlds.now) named.now result }
{
    for index in 0..named.len() {
        let (name, (item, gates)) = named.entry_at(index);
        if gates.is_empty() || !is_name_only(interfaces, worlds, name, *item) {
            return Some(index);
        }
    }
    None
}

/// Whether an item that is named of a package is there and bare.
fn is_name_only(interfaces: &[Interface], worlds: &[World], name: &str, item: AstItem) -> bool
    ensures { IsTrue result ↔ IsNameOnly interfaces.now worlds.now name.now item }
{
    match item {
        AstItem::Interface(id) => match interfaces.get(id.index()) {
            Some(interface) => is_name_only_interface(name, interface),
            None => false,
        },
        AstItem::World(id) => match worlds.get(id.index()) {
            Some(world) => is_name_only_world(name, world),
            None => false,
        },
    }
}

fn is_name_only_interface(name: &str, interface: &Interface) -> bool
    ensures { IsTrue result ↔ IsNameOnlyInterface name.now interface.now }
{
    has_name(&interface.name, name) && interface.functions.is_empty()
}

fn is_name_only_world(name: &str, world: &World) -> bool
    ensures { IsTrue result ↔ IsNameOnlyWorld name.now world.now }
{
    is_text(&world.name, name)
        && world.imports.is_empty()
        && world.exports.is_empty()
        && world.includes.is_empty()
}
