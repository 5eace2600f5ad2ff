//! What stands under labels of worlds, of a graph or of a package.
ghost use Rattle.std.specs.Prelude.{◌≡◌, ◌++◌, IfOk, OnOk};
ghost use Rattle.wit_ways.specs.Arrows.{held_by, holder, listed_by, world_arrows};

use crate::arrow::{Arrow, called, item_text, placed};
use std::alloc::{AllocError, Global};
use wit_data::{Items, PackageName, Table, Text, TryClone, World, WorldItem, WorldKey};
use wit_graph_data::Features;
use wit_link_spec::is_active;

/// Which entries of a world are asked for.
#[derive(Clone, Copy)]
pub enum WorldSide {
    Imports,
    Exports,
}

/// Notes which interfaces, by these names, a world of a package of this name has on a side, where they are active under these
/// features; at their entries' spans, so many positions further on.
pub fn add_entries(
    alloc: Global,
    features: &Features,
    offset: u32,
    names: &[Option<Text>],
    side: WorldSide,
    home: &PackageName,
    world: &World,
    arrows: &mut Items<Arrow>,
) -> Result<(), AllocError>
    ensures { OnOk result (arrows.new
        ≡ arrows.old ++ world_arrows features.now offset names.now side home.now world.now) }
{
    let name = &world.name;
    for (key, item) in entries_of(world, side).iter() {
        let arrow = held_by(alloc, features, offset, names, home, name, key, item)?;
        if let Some(arrow) = arrow {
            arrows.push(arrow)?;
        }
    }
    Ok(())
}

/// The imports of a world, or its exports.
pub fn entries_of(world: &World, side: WorldSide) -> &Table<WorldKey, WorldItem>
    ensures { result.now ≡ listed_by side world.now }
{
    match side {
        WorldSide::Imports => &world.imports,
        WorldSide::Exports => &world.exports,
    }
}

/// That a label of the world of a name is that of an interface.
fn held_by(
    alloc: Global,
    features: &Features,
    offset: u32,
    names: &[Option<Text>],
    home: &PackageName,
    world: &Text,
    key: &WorldKey,
    item: &WorldItem,
) -> Result<Option<Arrow>, AllocError>
    ensures { IfOk result (λ arrow.
        arrow ≡ held_by features.now offset names.now home.now world.now (key.now, item.now)) }
{
    let WorldItem::Interface {
        id,
        stability,
        span,
        ..
    } = item
    else {
        return Ok(None);
    };
    if !is_active(features, stability) {
        return Ok(None);
    }
    let Some(to) = called(names, *id) else {
        return Ok(None);
    };
    let holder = holder(alloc, world, key)?;
    let from = item_text(alloc, home, holder.as_str())?;
    let to = to.try_clone()?;
    let span = placed(*span, offset);
    Ok(Some(Arrow { from, to, span }))
}

/// `world.label`: what has what stands under a key of a world. An interface's own key counts as the empty label, `world.`,
/// which is no interface's name.
fn holder(alloc: Global, world: &Text, key: &WorldKey) -> Result<Text, AllocError>
    ensures { IfOk result (λ name. name ≡ holder world.now key.now) }
{
    let label = match key {
        WorldKey::Interface(_) => "",
        WorldKey::Name(label) => label.as_str(),
    };
    let joined = format!(in alloc; "{world}.{label}")?;
    Ok(Text::from_string(joined))
}
