//! What a package and its things are called.
ghost use Rattle.std.specs.Prelude.{◌≡◌, ◌↔◌, ◌++◌, ◌∷◌, [], Contains, Some, IfOk, IfSome, IsTrue, option_to_list};
ghost use Rattle.wit_data.specs.Each.{Each};
ghost use Rattle.wit_data.specs.declared.interface.Interface.{Interface};
ghost use Rattle.wit_data.specs.declared.world.World.{World};
ghost use Rattle.wit_names.specs.UsePath.{IsKebabName};
ghost use Rattle.wit_shape.specs.declared.clause.ShapeClause.TheVariants.{NamesInterfacesDiffer, NamesNamespace, NamesOwn, NamesVersion, NamesWorldsDiffer};
ghost use Rattle.wit_shape.specs.declared.place.ShapePlace.TheVariants as place;
ghost use Rattle.wit_shape.specs.Faults.{Tells};
ghost use Rattle.wit_shape.specs.First.{FindsFirst};

use crate::place::ShapePlace;
use std::alloc::{AllocError, Global};
use wit_data::{
    Interface, InterfaceId, UnresolvedPackage, World, WorldId, foreign_interfaces, foreign_worlds,
    is_kebab_name,
};
use wit_values::{NameSet, Text};

/// The name of the package, where its namespace is no kebab name.
pub(crate) fn namespace(unresolved: &UnresolvedPackage) -> Option<ShapePlace>
    ensures { Tells unresolved.now NamesNamespace result }
{
    if is_kebab_name(unresolved.name.namespace.as_str()) {
        None
    } else {
        Some(ShapePlace::Name)
    }
}

/// The name of the package, where it is no kebab name.
pub(crate) fn own(unresolved: &UnresolvedPackage) -> Option<ShapePlace>
    ensures { Tells unresolved.now NamesOwn result }
{
    if is_kebab_name(unresolved.name.name.as_str()) {
        None
    } else {
        Some(ShapePlace::Name)
    }
}

/// Whether the names of interfaces are kebab names.
pub fn are_interfaces_kebab(interfaces: &[Interface]) -> bool
    ensures { IsTrue result
        ↔ Each (λ (interface : Interface). IfSome interface.name IsKebabName) interfaces.now }
{
    self::interfaces(interfaces).is_none()
}

/// The first interface with a name that is no kebab name.
pub fn interfaces(interfaces: &[Interface]) -> Option<ShapePlace>
    ensures { FindsFirst place.Interface
        (λ _ (interface : Interface). IfSome interface.name IsKebabName) interfaces.now result }
{
    let index = interfaces
        .iter()
        .position(|interface| !is_interface_kebab(interface))?;
    Some(ShapePlace::Interface(InterfaceId::from_index(index)))
}

fn is_interface_kebab(interface: &Interface) -> bool
    ensures { IsTrue result ↔ IfSome interface.now.name IsKebabName }
{
    match &interface.name {
        Some(name) => is_kebab_name(name.as_str()),
        None => true,
    }
}

/// Whether the names of worlds are kebab names.
pub fn are_worlds_kebab(worlds: &[World]) -> bool
    ensures { IsTrue result ↔ Each (λ (world : World). IsKebabName world.name) worlds.now }
{
    self::worlds(worlds).is_none()
}

/// The first world with a name that is no kebab name.
pub(crate) fn worlds(worlds: &[World]) -> Option<ShapePlace>
    ensures { FindsFirst place.World (λ _ (world : World). IsKebabName world.name) worlds.now
        result }
{
    let index = worlds
        .iter()
        .position(|world| !is_kebab_name(world.name.as_str()))?;
    Some(ShapePlace::World(WorldId::from_index(index)))
}

/// The name of the package, where its version isn't one of SemVer.
pub(crate) fn version(
    alloc: Global,
    unresolved: &UnresolvedPackage,
) -> Result<Option<ShapePlace>, AllocError>
    ensures { IfOk result (λ found. Tells unresolved.now NamesVersion found) }
{
    if unresolved.name.has_valid_version(alloc)? {
        Ok(None)
    } else {
        Ok(Some(ShapePlace::Name))
    }
}

/// The first interface of the package with the name of an earlier one.
pub(crate) fn interfaces_differ(
    alloc: Global,
    unresolved: &UnresolvedPackage,
) -> Result<Option<ShapePlace>, AllocError>
    ensures { IfOk result (λ found. Tells unresolved.now NamesInterfacesDiffer found) }
{
    let foreign = foreign_interfaces(alloc, &unresolved.foreign_deps)?.len();
    let mut met = NameSet::new(alloc);
    for (index, interface) in unresolved.interfaces.as_slice().iter().enumerate() {
        if index < foreign {
            continue;
        }
        if !has_new_name(alloc, &mut met, interface)? {
            return Ok(Some(ShapePlace::Interface(InterfaceId::from_index(index))));
        }
    }
    Ok(None)
}

/// Adds the name of an interface, where it has one, to those that were met, and tells whether it is new.
fn has_new_name(alloc: Global, met: &mut NameSet, interface: &Interface) -> Result<bool, AllocError>
    ensures new { IfOk result
        (λ new. IsTrue new ↔ IfSome interface.now.name (λ name. Contains met.old name → ⊥)) }
    ensures met { IfOk result
        (λ new. IsTrue new → met.new ≡ met.old ++ option_to_list interface.now.name) }
{
    match &interface.name {
        Some(name) => is_new(alloc, met, name.as_str()),
        None => Ok(true),
    }
}

/// Adds a name to those that were met, and tells whether it is new.
fn is_new(alloc: Global, met: &mut NameSet, name: &str) -> Result<bool, AllocError>
    ensures new { IfOk result (λ new. IsTrue new ↔ (Contains met.old name.now → ⊥)) }
    ensures met { IfOk result (λ new. IsTrue new → met.new ≡ met.old ++ name.now ∷ []) }
{
    if met.contains(name) {
        return Ok(false);
    }
    met.insert(alloc, name)?;
    Ok(true)
}

/// The first world of the package with the name of an earlier one.
pub(crate) fn worlds_differ(
    alloc: Global,
    unresolved: &UnresolvedPackage,
) -> Result<Option<ShapePlace>, AllocError>
    ensures { IfOk result (λ found. Tells unresolved.now NamesWorldsDiffer found) }
{
    let foreign = foreign_worlds(alloc, &unresolved.foreign_deps)?.len();
    let mut met = NameSet::new(alloc);
    for (index, world) in unresolved.worlds.as_slice().iter().enumerate() {
        if index < foreign {
            continue;
        }
        if !is_new(alloc, &mut met, world.name.as_str())? {
            return Ok(Some(ShapePlace::World(WorldId::from_index(index))));
        }
    }
    Ok(None)
}

/// Whether there is a name, and it is the wanted one.
pub fn has_name(name: &Option<Text>, wanted: &str) -> bool
    ensures { IsTrue result ↔ (name.now ≡ Some wanted.now) }
{
    match name {
        Some(name) => is_text(name, wanted),
        None => false,
    }
}

/// Whether a text is the wanted one.
pub fn is_text(text: &Text, wanted: &str) -> bool
    ensures { IsTrue result ↔ (text.now ≡ wanted.now) }
{
    text.as_str() == wanted
}
