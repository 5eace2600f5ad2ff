//! Worlds, with new ids and spans.
ghost use Rattle.std.specs.Prelude.{◌≡◌, ℕ, IfOk, map};
ghost use Rattle.std.specs.List.{IsDistinct};
ghost use Rattle.std.specs.Map.{keys_of};
ghost use Rattle.wit_remap_spec.specs.Image.{entry_image, item_image, key_image};
ghost use Rattle.wit_data.specs.Each.{Each};
ghost use Rattle.wit_data.specs.facts.WorldKeyFacts.{same_key};
ghost use Rattle.wit_remap.specs.steps.Fits.{EntriesFit, Fits, ItemFits, WorldFits, HasKeysApart, updated_world};
ghost use Rattle.wit_remap.specs.steps.Movers.{maps_of};
ghost use Rattle.wit_remap.specs.steps.Parts.{kept_of};

use crate::mover::Mover;
use crate::moves::Moves;
use crate::part::Part;
use crate::update::Update;
use std::alloc::{AllocError, Global};
use std::mem;
use wit_data::{Items, Table, World, WorldId, WorldInclude, WorldItem, WorldKey};

/// A world of a package with new ids and spans, before its includes.
#[derive(Drop)]
pub struct UpdatedWorld {
    /// Its id in the package.
    pub id: WorldId,
    pub world: World,
    /// What it includes, with the ids that it had in the package.
    pub includes: Items<WorldInclude>,
}

/// Worlds with new ids and spans, of each what is active.
pub(crate) fn updated_worlds(
    alloc: Global,
    mover: &Mover<'_>,
    part: &Part<'_>,
    worlds: Items<(usize, World)>,
) -> Result<Items<UpdatedWorld>, AllocError>
    requires fits { Each (λ e. WorldFits (Fits mover.now.offset) e.1) worlds }
    requires keys { Each (λ e. HasKeysApart (maps_of mover.now) (kept_of part.now) e.1) worlds }
    ensures { IfOk result
        (λ updated. updated ≡ map (updated_world (maps_of mover.now) part.now) worlds) }
{
    let mut updated = Items::new(alloc);
    for (index, world) in worlds.into_vec() {
        let id = WorldId::from_index(index);
        updated.push(updated_world(alloc, mover, part, id, world)?)?;
    }
    Ok(updated)
}

/// A world with new ids and spans, of it what is active.
fn updated_world(
    alloc: Global,
    mover: &Mover<'_>,
    part: &Part<'_>,
    id: WorldId,
    mut world: World,
) -> Result<UpdatedWorld, AllocError>
    requires fits { WorldFits (Fits mover.now.offset) world }
    requires keys { HasKeysApart (maps_of mover.now) (kept_of part.now) world }
    ensures { IfOk result
        (λ updated. updated ≡ updated_world (maps_of mover.now) part.now (id, world)) }
{
    let imports = mem::replace(&mut world.imports, Table::new(alloc));
    let imports = updated_entries(alloc, mover, part.cut_entries(imports))?;
    world.imports = imports;
    let exports = mem::replace(&mut world.exports, Table::new(alloc));
    let exports = updated_entries(alloc, mover, part.cut_entries(exports))?;
    world.exports = exports;
    let includes = part.cut_includes(mem::replace(&mut world.includes, Items::new(alloc)));
    world.package = Some(mover.package);
    world.span = mover.span(world.span);
    Ok(UpdatedWorld {
        id,
        world,
        includes,
    })
}

/// Entries of a package's world, in their order, with new ids and spans: the ids of keys and items go and the
/// spans move as the mover says. The spans can be moved, and the keys differ where they go. The only
/// error is want of memory.
///
/// Source: `update_world` and `update_world_key` of wit-parser 0.263.0.
pub fn updated_entries(
    alloc: Global,
    mover: &Mover<'_>,
    entries: Table<WorldKey, WorldItem>,
) -> Result<Table<WorldKey, WorldItem>, AllocError>
    requires fits { EntriesFit (Fits mover.now.offset) entries }
    requires keys { IsDistinct same_key
        (keys_of (map (entry_image (maps_of mover.now) 0) entries)) }
    ensures { IfOk result
        (λ updated. (w : ℕ) → updated ≡ map (entry_image (maps_of mover.now) w) entries) }
{
    let mut updated = Table::new(alloc);
    updated.reserve(entries.len())?;
    for (key, item) in entries.into_pairs() {
        updated.push(updated_key(mover, key), updated_item(mover, item))?;
    }
    Ok(updated)
}

/// A key of a world with its new id.
fn updated_key(mover: &Mover<'_>, key: WorldKey) -> WorldKey
    ensures { (w : ℕ) → result ≡ key_image (maps_of mover.now) w key }
{
    match key {
        WorldKey::Name(label) => WorldKey::Name(label),
        WorldKey::Interface(id) => WorldKey::Interface(mover.interface_id(id)),
    }
}

/// What a world holds under a key, with new ids and spans.
fn updated_item(mover: &Mover<'_>, item: WorldItem) -> WorldItem
    requires { ItemFits (Fits mover.now.offset) item }
    ensures { (w : ℕ) → result ≡ item_image (maps_of mover.now) w item }
{
    let mut item = item;
    match &mut item {
        WorldItem::Interface { id, span, .. } => {
            *id = mover.interface_id(*id);
            *span = mover.span(*span);
        }
        WorldItem::Function(function) => function.update(mover),
        WorldItem::Type_ { id, span } => {
            id.update(mover);
            *span = mover.span(*span);
        }
    }
    item
}
