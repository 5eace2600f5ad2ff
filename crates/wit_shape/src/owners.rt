//! Which types belong to which interface or world.
ghost use Rattle.std.specs.Prelude.{◌≡◌, ◌↔◌, Contains, ℕ, List, IfOk, IsTrue};
ghost use Rattle.std.specs.Option.{option_copied};
ghost use Rattle.wit_data.specs.Each.{Each, EachAt, SomeAt};
ghost use Rattle.wit_data.specs.Ownership.{IsListed, IsTypeOf, ListsOwn, NamesFunctions, world_types};
ghost use Rattle.wit_data.specs.steps.Ownership.{IsTypeItem};
ghost use Rattle.wit_data.specs.declared.function.Function.{Function};
ghost use Rattle.wit_data.specs.declared.interface.Interface.{Interface};
ghost use Rattle.wit_data.specs.declared.types.TypeDef.{TypeDef};
ghost use Rattle.wit_data.specs.declared.types.TypeOwner.TheVariants as owners;
ghost use Rattle.wit_data.specs.declared.world.World.{World};
ghost use Rattle.wit_shape.specs.First.{FindsFirst, FindsWithin};
ghost use Rattle.wit_shape.specs.declared.place.ShapePlace.TheVariants as place;

use crate::names::has_name;
use crate::place::ShapePlace;
use std::alloc::AllocError;
use wit_data::{
    Interface, InterfaceId, TypeDef, TypeId, TypeOwner, World, WorldId, WorldItem, WorldKey,
};
use wit_values::{Names, Text, TryClone};

/// Whether each type with an owner has a name and is listed by its owner under it, and each other
/// has no name. The only error is want of memory.
pub fn are_listed(
    interfaces: &[Interface],
    worlds: &[World],
    types: &[TypeDef],
) -> Result<bool, AllocError>
    ensures { IfOk result (λ listed.
        IsTrue listed
        ↔ EachAt (λ i (def : TypeDef). IsListed interfaces.now worlds.now i def.name def.owner)
        types.now) }
{
    Ok(listed(interfaces, worlds, types)?.is_none())
}

/// The first type that its owner doesn't list, or that has a name without an owner.
pub fn listed(
    interfaces: &[Interface],
    worlds: &[World],
    types: &[TypeDef],
) -> Result<Option<ShapePlace>, AllocError>
    ensures { IfOk result (λ found.
        FindsFirst place.Type_
        (λ i (def : TypeDef). IsListed interfaces.now worlds.now i def.name def.owner)
        types.now found) }
{
    for (index, def) in types.iter().enumerate() {
        if !is_listed(interfaces, worlds, index, def)? {
            return Ok(Some(ShapePlace::Type_(TypeId::from_index(index))));
        }
    }
    Ok(None)
}

/// Whether a type with an owner is listed by it, or one without has no name.
fn is_listed(
    interfaces: &[Interface],
    worlds: &[World],
    index: usize,
    def: &TypeDef,
) -> Result<bool, AllocError>
    ensures { IfOk result (λ listed.
        IsTrue listed ↔ IsListed interfaces.now worlds.now index def.now.name def.now.owner) }
{
    let Some(name) = &def.name else {
        return Ok(matches!(def.owner, TypeOwner::None));
    };
    match def.owner {
        TypeOwner::None => Ok(false),
        TypeOwner::Interface(owner) => Ok(is_in_interface(interfaces, owner, name.as_str(), index)),
        TypeOwner::World(owner) => is_in_world(worlds, owner, name, index),
    }
}

/// Whether there is such an interface, and it lists a type under a name.
fn is_in_interface(interfaces: &[Interface], owner: InterfaceId, name: &str, index: usize) -> bool
    ensures { IsTrue result
        ↔ SomeAt interfaces.now owner
        (λ (interface : Interface). Contains interface.types (name.now, index)) }
{
    match interfaces.get(owner.index()) {
        Some(interface) => lists(&interface.types, name, index),
        None => false,
    }
}

/// Whether there is such a world, and it lists a type under a name.
fn is_in_world(
    worlds: &[World],
    owner: WorldId,
    name: &Text,
    index: usize,
) -> Result<bool, AllocError>
    ensures { IfOk result (λ listed.
        IsTrue listed
        ↔ SomeAt worlds.now owner
        (λ (world : World). Contains (world_types world) (name.now, index))) }
{
    match worlds.get(owner.index()) {
        Some(world) => world_lists(world, name, index),
        None => Ok(false),
    }
}

/// Whether a table has a type under a name.
fn lists(types: &Names<TypeId>, name: &str, index: usize) -> bool
    ensures { IsTrue result ↔ Contains types.now (name.now, index) }
{
    if types.len() == 0 {
        return false;
    }
    match types.get(name) {
        Some(found) => found.index() == index,
        None => false,
    }
}

/// Whether a world lists a type under a name.
fn world_lists(world: &World, name: &Text, index: usize) -> Result<bool, AllocError>
    ensures { IfOk result
        (λ listed. IsTrue listed ↔ Contains (world_types world.now) (name.now, index)) }
{
    if world.imports.len() == 0 {
        return Ok(false);
    }
    let key = WorldKey::Name(name.try_clone()?);
    Ok(is_type_item(world.imports.get(&key), index))
}

fn is_type_item(item: Option<&WorldItem>, index: usize) -> bool
    ensures { IsTrue result ↔ IsTypeItem (option_copied item.entry) index }
{
    match item {
        Some(WorldItem::Type_ { id, .. }) => id.index() == index,
        _ => false,
    }
}

/// Whether each interface lists its own types alone, each under its name.
pub fn all_list_own(types: &[TypeDef], interfaces: &[Interface]) -> bool
    ensures { IsTrue result ↔ EachAt (ListsOwn types.now) interfaces.now }
{
    own_types(types, interfaces).is_none()
}

/// The first type that an interface lists and that isn't its own of that name.
pub fn own_types(types: &[TypeDef], interfaces: &[Interface]) -> Option<ShapePlace>
    ensures { FindsWithin place.InterfaceType (λ f (interface : Interface) (e : List ℕ × ℕ).
        IsTypeOf types.now (owners.Interface f) e.0 e.1)
        (λ (interface : Interface). interface.types) interfaces.now result }
{
    for (index, interface) in interfaces.iter().enumerate() {
        let owner = InterfaceId::from_index(index);
        if let Some(at) = type_of_another(types, owner, interface) {
            return Some(ShapePlace::InterfaceType(owner, at));
        }
    }
    None
}

fn type_of_another(types: &[TypeDef], owner: InterfaceId, interface: &Interface) -> Option<usize>
    ensures { FindsFirst (λ i. i)
        (λ _ (e : List ℕ × ℕ). IsTypeOf types.now (owners.Interface owner) e.0 e.1)
        interface.now.types result }
{
    for index in 0..interface.types.len() {
        let (name, id) = interface.types.entry_at(index);
        if !is_type_of(types, TypeOwner::Interface(owner), name, *id) {
            return Some(index);
        }
    }
    None
}

/// Whether there is such a type, with this owner and this name.
pub(crate) fn is_type_of(types: &[TypeDef], owner: TypeOwner, name: &str, id: TypeId) -> bool
    ensures { IsTrue result ↔ IsTypeOf types.now owner name.now id }
{
    match types.get(id.index()) {
        Some(def) => def.owner == owner && has_name(&def.name, name),
        None => false,
    }
}

/// Whether each function of each interface stands under its name.
pub fn all_name_functions(interfaces: &[Interface]) -> bool
    ensures { IsTrue result ↔ Each NamesFunctions interfaces.now }
{
    functions(interfaces).is_none()
}

/// The first function that stands under another name.
pub fn functions(interfaces: &[Interface]) -> Option<ShapePlace>
    ensures { FindsWithin place.Function
        (λ _ (interface : Interface) (e : List ℕ × Function). e.1.name ≡ e.0)
        (λ (interface : Interface). interface.functions) interfaces.now result }
{
    for (index, interface) in interfaces.iter().enumerate() {
        if let Some(at) = function_of_another_name(interface) {
            return Some(ShapePlace::Function(InterfaceId::from_index(index), at));
        }
    }
    None
}

fn function_of_another_name(interface: &Interface) -> Option<usize>
    ensures { FindsFirst (λ i. i) (λ _ (e : List ℕ × Function). e.1.name ≡ e.0)
        interface.now.functions result }
{
    for index in 0..interface.functions.len() {
        let (name, function) = interface.functions.entry_at(index);
        if function.name.as_str() != name {
            return Some(index);
        }
    }
    None
}
