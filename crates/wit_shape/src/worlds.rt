//! What worlds import, export and include.
ghost use Rattle.std.specs.Prelude.{◌≡◌, ◌↔◌, ◌++◌, ◌<◌, ℕ, filter, take, Contains, IfOk, OnOk, IsTrue, nat_eq};
ghost use Rattle.std.specs.List.{IsDistinct};
ghost use Rattle.wit_data.specs.Each.{Each, EachAt};
ghost use Rattle.wit_data.specs.Entries.{Entry, ExportsAreAllowed, ImportsAreAllowed, IsExport, IsImport, StandOnce, interfaces_in_worlds, interfaces_of_entries, is_unnamed, item_interface};
ghost use Rattle.wit_data.specs.declared.world.World.{World};
ghost use Rattle.wit_data.specs.declared.world.WorldInclude.{WorldInclude};
ghost use Rattle.wit_shape.specs.Faults.{FindsAgain};
ghost use Rattle.wit_shape.specs.First.{AtFirstId, Finds, FindsFirst, FindsWithin};
ghost use Rattle.wit_shape.specs.declared.place.ShapePlace.TheVariants as place;
ghost use Rattle.wit_data.specs.steps.Parts.{IncludesEarlier};

use crate::names::is_text;
use crate::owners::is_type_of;
use crate::place::ShapePlace;
use crate::references::is_named;
use std::alloc::{AllocError, Global};
use wit_data::{
    Interface, InterfaceId, TypeDef, TypeOwner, World, WorldId, WorldItem, WorldKey, is_unnamed,
};
use wit_digraph::Listing;
use wit_values::{Items, Table};

/// Whether the imports of each world are imports: under the key of an interface that interface,
/// which has a name, and under a label an interface, the function of that name or the world's own
/// type of that name.
pub fn all_have_imports(interfaces: &[Interface], types: &[TypeDef], worlds: &[World]) -> bool
    ensures { IsTrue result ↔ EachAt (ImportsAreAllowed interfaces.now types.now) worlds.now }
{
    imports(interfaces, types, worlds).is_none()
}

/// The first import that may not stand under its key.
pub fn imports(interfaces: &[Interface], types: &[TypeDef], worlds: &[World]) -> Option<ShapePlace>
    ensures { FindsWithin place.Import
        (λ w (world : World) (e : Entry). IsImport interfaces.now types.now w e.0 e.1)
        (λ (world : World). world.imports) worlds.now result }
{
    for (index, world) in worlds.iter().enumerate() {
        let owner = WorldId::from_index(index);
        if let Some(at) = entry_that_is_no_import(interfaces, types, owner, world) {
            return Some(ShapePlace::Import(owner, at));
        }
    }
    None
}

fn entry_that_is_no_import(
    interfaces: &[Interface],
    types: &[TypeDef],
    owner: WorldId,
    world: &World,
) -> Option<usize>
    ensures { FindsFirst (λ i. i) (λ _ (e : Entry). IsImport interfaces.now types.now owner e.0 e.1)
        world.now.imports result }
{
    for index in 0..world.imports.len() {
        let (key, item) = world.imports.entry_at(index);
        if !is_import(interfaces, types, owner, key, item) {
            return Some(index);
        }
    }
    None
}

/// Whether an entry is as an export, or a type of its world under its name.
fn is_import(
    interfaces: &[Interface],
    types: &[TypeDef],
    owner: WorldId,
    key: &WorldKey,
    item: &WorldItem,
) -> bool
    ensures { IsTrue result ↔ IsImport interfaces.now types.now owner key.now item.now }
{
    match (key, item) {
        (WorldKey::Name(name), WorldItem::Type_ { id, .. }) => is_type_of(
            types,
            TypeOwner::World(owner),
            name.as_str(),
            *id,
        ),
        _ => is_export(interfaces, key, item),
    }
}

/// Whether the key of an interface holds that interface, which has a name, and a label an interface or the function of
/// that name.
fn is_export(interfaces: &[Interface], key: &WorldKey, item: &WorldItem) -> bool
    ensures { IsTrue result ↔ IsExport interfaces.now key.now item.now }
{
    match key {
        WorldKey::Interface(named) => match item {
            WorldItem::Interface { id, .. } => *id == *named && is_named(interfaces, *named),
            WorldItem::Function(_) | WorldItem::Type_ { .. } => false,
        },
        WorldKey::Name(name) => match item {
            WorldItem::Interface { id, .. } => id.index() < interfaces.len(),
            WorldItem::Function(function) => is_text(&function.name, name.as_str()),
            WorldItem::Type_ { .. } => false,
        },
    }
}

/// Whether the exports of each world are exports: under the key of an interface that interface,
/// which has a name, and under a label an interface or the function of that name.
pub fn all_have_exports(interfaces: &[Interface], worlds: &[World]) -> bool
    ensures { IsTrue result ↔ Each (ExportsAreAllowed interfaces.now) worlds.now }
{
    exports(interfaces, worlds).is_none()
}

/// The first export that may not stand under its key.
pub fn exports(interfaces: &[Interface], worlds: &[World]) -> Option<ShapePlace>
    ensures { FindsWithin place.Export
        (λ _ (world : World) (e : Entry). IsExport interfaces.now e.0 e.1)
        (λ (world : World). world.exports) worlds.now result }
{
    for (index, world) in worlds.iter().enumerate() {
        if let Some(at) = entry_that_is_no_export(interfaces, world) {
            return Some(ShapePlace::Export(WorldId::from_index(index), at));
        }
    }
    None
}

fn entry_that_is_no_export(interfaces: &[Interface], world: &World) -> Option<usize>
    ensures { FindsFirst (λ i. i) (λ _ (e : Entry). IsExport interfaces.now e.0 e.1)
        world.now.exports result }
{
    for index in 0..world.exports.len() {
        let (key, item) = world.exports.entry_at(index);
        if !is_export(interfaces, key, item) {
            return Some(index);
        }
    }
    None
}

/// Whether each world includes earlier worlds.
pub fn all_include_earlier(worlds: &[World]) -> bool
    ensures { IsTrue result ↔ EachAt IncludesEarlier worlds.now }
{
    includes(worlds).is_none()
}

/// The first include of the world itself or a later one.
pub(crate) fn includes(worlds: &[World]) -> Option<ShapePlace>
    ensures { FindsWithin place.Include
        (λ w (world : World) (include : WorldInclude). include.id < w)
        (λ (world : World). world.includes) worlds.now result }
{
    for (index, world) in worlds.iter().enumerate() {
        if let Some(at) = include_of_no_earlier(index, world) {
            return Some(ShapePlace::Include(WorldId::from_index(index), at));
        }
    }
    None
}

fn include_of_no_earlier(index: usize, world: &World) -> Option<usize>
    ensures { FindsFirst (λ i. i) (λ _ (include : WorldInclude). include.id < index)
        world.now.includes result }
{
    let includes = world.includes.as_slice();
    includes
        .iter()
        .position(|include| include.id.index() >= index)
}

/// Whether no interface without a name stands in two entries of all worlds. The only error is want
/// of memory.
pub fn stand_once(
    alloc: Global,
    interfaces: &[Interface],
    worlds: &[World],
) -> Result<bool, AllocError>
    ensures { IfOk result (λ once. IsTrue once ↔ StandOnce interfaces.now worlds.now) }
{
    Ok(once(alloc, interfaces, worlds)?.is_none())
}

/// The first interface without a name that stands in a second place.
pub fn once(
    alloc: Global,
    interfaces: &[Interface],
    worlds: &[World],
) -> Result<Option<ShapePlace>, AllocError>
    ensures { IfOk result (λ found. FindsAgain interfaces.now worlds.now found) }
{
    let placed = interfaces_in_worlds(alloc, worlds)?;
    let unnamed = unnamed_among(alloc, interfaces, placed.as_slice())?;
    match first_again(alloc, unnamed.as_slice(), interfaces.len())? {
        Some(id) => Ok(Some(ShapePlace::Interface(InterfaceId::from_index(id)))),
        None => Ok(None),
    }
}

/// Of numbers below a bound, the first that stands among those before it.
fn first_again(alloc: Global, numbers: &[usize], bound: usize) -> Result<Option<usize>, AllocError>
    requires { Each (λ number. number < bound) numbers.now }
    ensures { IfOk result (λ found.
        Finds (IsDistinct nat_eq numbers.now)
        (AtFirstId (λ id. id) (λ i id. Contains (take i numbers.now) id → ⊥) numbers.now)
        found) }
{
    let mut met = Listing::new(alloc, bound)?;
    for number in numbers {
        if met.has(*number) {
            return Ok(Some(*number));
        }
        met.push(*number)?;
    }
    Ok(None)
}

/// The interfaces without names among some.
fn unnamed_among(
    alloc: Global,
    interfaces: &[Interface],
    ids: &[usize],
) -> Result<Items<usize>, AllocError>
    ensures { IfOk result (λ unnamed. unnamed ≡ filter (is_unnamed interfaces.now) ids.now) }
{
    let mut unnamed = Items::new(alloc);
    for id in ids {
        if is_unnamed(interfaces, InterfaceId::from_index(*id)) {
            unnamed.push(*id)?;
        }
    }
    Ok(unnamed)
}

/// The interfaces in all entries of all worlds.
fn interfaces_in_worlds(alloc: Global, worlds: &[World]) -> Result<Items<usize>, AllocError>
    ensures { IfOk result (λ ids. ids ≡ interfaces_in_worlds worlds.now) }
{
    let mut ids = Items::new(alloc);
    for world in worlds {
        push_entries(&mut ids, &world.imports)?;
        push_entries(&mut ids, &world.exports)?;
    }
    Ok(ids)
}

fn push_entries(
    ids: &mut Items<usize>,
    entries: &Table<WorldKey, WorldItem>,
) -> Result<(), AllocError>
    ensures { OnOk result (ids.new ≡ ids.old ++ interfaces_of_entries entries.now) }
{
    for (_, item) in entries.iter() {
        push_item(ids, item)?;
    }
    Ok(())
}

fn push_item(ids: &mut Items<usize>, item: &WorldItem) -> Result<(), AllocError>
    ensures { OnOk result (ids.new ≡ ids.old ++ item_interface item.now) }
{
    match item {
        WorldItem::Interface { id, .. } => ids.push(id.index()),
        WorldItem::Function(_) | WorldItem::Type_ { .. } => Ok(()),
    }
}
