//! What leads where in a package that comes: which packages it names, which interface uses which, what worlds export, and what
//! they include.
ghost use Rattle.std.specs.Prelude.{◌≡◌, ◌++◌, IfOk, OnOk, filter_map};
ghost use Rattle.std.specs.Option.{option_to_list};
ghost use Rattle.wit_ways.specs.Packages.{dependencies_by, include_of, interface_name, interface_names, package_arrows, package_dependencies, package_includes, package_world, package_worlds};
ghost use Rattle.wit_ways.specs.steps.ForeignHomes.{AreHomes};

use crate::arrow::{Arrow, item_text, package_text, placed};
use crate::entries::{WorldSide, add_entries};
use crate::foreign_home::{ForeignHomes, item_home};
use crate::include::Include;
use crate::uses::uses_in;
use crate::world_name::{WorldName, WorldPlace};
use std::alloc::{AllocError, Global};
use wit_data::{
    AstItem, InterfaceId, Items, Text, TryClone, UnresolvedPackage, World, WorldId, WorldInclude,
};
use wit_graph_data::Features;
use wit_link_spec::is_active;
use wit_values::try_clone_two;

/// Which packages a package names, each where it is named first.
pub fn package_dependencies(
    alloc: Global,
    offset: u32,
    package: &UnresolvedPackage,
) -> Result<Items<Arrow>, AllocError>
    ensures { IfOk result (λ arrows. arrows ≡ package_dependencies offset «package».now) }
{
    let mut arrows = Items::new(alloc);
    let mut spans = package.foreign_dep_spans.as_slice();
    for (other, _) in package.foreign_deps.iter() {
        let Some((span, rest)) = spans.split_first() else {
            return Ok(arrows);
        };
        let from = package_text(alloc, &package.name)?;
        let to = package_text(alloc, other)?;
        let span = placed(*span, offset);
        arrows.push(Arrow { from, to, span })?;
        spans = rest;
    }
    Ok(arrows)
}

/// Which interface of a package uses which, and what its worlds export, where that is active under these features.
pub fn package_arrows(
    alloc: Global,
    features: &Features,
    offset: u32,
    package: &UnresolvedPackage,
    homes: &ForeignHomes,
) -> Result<Items<Arrow>, AllocError>
    requires { AreHomes «package».now homes.now }
    ensures { IfOk result (λ arrows. arrows ≡ package_arrows features.now offset «package».now) }
{
    let names = interface_names(alloc, package, homes)?;
    let names = names.as_slice();
    let (types, interfaces) = (package.types.as_slice(), &package.interfaces);
    let mut arrows = uses_in(alloc, features, offset, types, interfaces, names)?;
    for world in package.worlds.as_slice() {
        add_entries(
            alloc,
            features,
            offset,
            names,
            WorldSide::Exports,
            &package.name,
            world,
            &mut arrows,
        )?;
    }
    Ok(arrows)
}

/// What each interface that a package has or names is called, by its package and its name, where it has one.
fn interface_names(
    alloc: Global,
    package: &UnresolvedPackage,
    homes: &ForeignHomes,
) -> Result<Items<Option<Text>>, AllocError>
    requires { AreHomes «package».now homes.now }
    ensures { IfOk result (λ names. names ≡ interface_names «package».now) }
{
    let mut names = Items::new(alloc);
    for index in 0..package.interfaces.len() {
        let id = InterfaceId::from_index(index);
        names.push(interface_name(alloc, package, homes, id)?)?;
    }
    Ok(names)
}

/// What an interface is called.
fn interface_name(
    alloc: Global,
    package: &UnresolvedPackage,
    homes: &ForeignHomes,
    id: InterfaceId,
) -> Result<Option<Text>, AllocError>
    requires { AreHomes «package».now homes.now }
    ensures { IfOk result (λ name. name ≡ interface_name «package».now id) }
{
    let Some(interface) = package.interfaces.get(id.index()) else {
        return Ok(None);
    };
    let Some(name) = &interface.name else {
        return Ok(None);
    };
    let home = item_home(package, homes, &AstItem::Interface(id));
    Ok(Some(item_text(alloc, home, name.as_str())?))
}

/// Notes where the worlds stand that a package has or names.
pub fn add_worlds(
    offset: u32,
    package: &UnresolvedPackage,
    homes: &ForeignHomes,
    places: &mut Items<WorldPlace>,
) -> Result<(), AllocError>
    requires { AreHomes «package».now homes.now }
    ensures { OnOk result (places.new ≡ places.old ++ package_worlds offset «package».now) }
{
    for index in 0..package.worlds.len() {
        let place = package_world(offset, package, homes, WorldId::from_index(index))?;
        add_place(places, place)?;
    }
    Ok(())
}

/// Notes a place, where there is one.
fn add_place(places: &mut Items<WorldPlace>, place: Option<WorldPlace>) -> Result<(), AllocError>
    ensures { OnOk result (places.new ≡ places.old ++ option_to_list place) }
{
    match place {
        Some(place) => places.push(place),
        None => Ok(()),
    }
}

/// Where a world stands.
fn package_world(
    offset: u32,
    package: &UnresolvedPackage,
    homes: &ForeignHomes,
    id: WorldId,
) -> Result<Option<WorldPlace>, AllocError>
    requires { AreHomes «package».now homes.now }
    ensures { IfOk result (λ place. place ≡ package_world offset «package».now id) }
{
    let Some(world) = package.worlds.get(id.index()) else {
        return Ok(None);
    };
    let home = item_home(package, homes, &AstItem::World(id));
    let (package, name) = try_clone_two(home, &world.name)?;
    let span = placed(world.span, offset);
    let world = WorldName { package, name };
    Ok(Some(WorldPlace { span, world }))
}

/// Notes what the worlds of a package include, where that is active under these features.
pub fn add_includes(
    features: &Features,
    offset: u32,
    package: &UnresolvedPackage,
    homes: &ForeignHomes,
    includes: &mut Items<Include>,
) -> Result<(), AllocError>
    requires { AreHomes «package».now homes.now }
    ensures { OnOk result
        (includes.new ≡ includes.old ++ package_includes features.now offset «package».now) }
{
    for world in package.worlds.as_slice() {
        add_own_includes(features, offset, package, homes, world, includes)?;
    }
    Ok(())
}

/// Notes what a world includes.
fn add_own_includes(
    features: &Features,
    offset: u32,
    package: &UnresolvedPackage,
    homes: &ForeignHomes,
    world: &World,
    includes: &mut Items<Include>,
) -> Result<(), AllocError>
    requires { AreHomes «package».now homes.now }
    ensures { OnOk result (includes.new
        ≡ includes.old
        ++ filter_map (include_of features.now offset «package».now world.now)
        world.now.includes) }
{
    for include in world.includes.as_slice() {
        if let Some(include) = include_of(features, offset, package, homes, world, include)? {
            includes.push(include)?;
        }
    }
    Ok(())
}

/// That a world includes another, where the include is active.
fn include_of(
    features: &Features,
    offset: u32,
    package: &UnresolvedPackage,
    homes: &ForeignHomes,
    world: &World,
    include: &WorldInclude,
) -> Result<Option<Include>, AllocError>
    requires { AreHomes «package».now homes.now }
    ensures { IfOk result
        (λ made. made ≡ include_of features.now offset «package».now world.now include.now) }
{
    if !is_active(features, &include.stability) {
        return Ok(None);
    }
    let Some(included) = package_world(offset, package, homes, include.id)? else {
        return Ok(None);
    };
    let included = included.world;
    let (package, name) = try_clone_two(&package.name, &world.name)?;
    let names = include.names.try_clone()?;
    let span = placed(include.span, offset);
    Ok(Some(Include {
        world: WorldName { package, name },
        included,
        names,
        span,
    }))
}
