//! What an owner's types and functions refer to, which is the owner's.
ghost use Rattle.std.specs.Prelude.{◌≡◌, ◌↔◌, ℕ, List, IfOk, IsTrue};
ghost use Rattle.wit_data.specs.Each.{Each, EachAt};
ghost use Rattle.wit_data.specs.Entries.{EntriesUseOwn, Entry, ItemUsesOwn};
ghost use Rattle.wit_data.specs.Ownership.{FunctionsUseOwn, IsOwn, RefersToOwn, UsesOwn};
ghost use Rattle.wit_data.specs.declared.function.Function.{Function};
ghost use Rattle.wit_data.specs.declared.interface.Interface.{Interface};
ghost use Rattle.wit_data.specs.declared.types.TypeOwner.TheVariants as owners;
ghost use Rattle.wit_data.specs.declared.world.World.{World};
ghost use Rattle.wit_shape.specs.steps.NamedOwners.{AreNamedOwners};
ghost use Rattle.wit_shape.specs.First.{FindsFirst, FindsWithin};
ghost use Rattle.wit_shape.specs.declared.place.ShapePlace.TheVariants as place;
ghost use Rattle.wit_data.specs.steps.Parts.{parts};

use crate::named_owners::{NamedOwners, is_own};
use crate::place::ShapePlace;
use std::alloc::{AllocError, Global};
use wit_data::{
    Function, Interface, InterfaceId, PartRole, TypeDef, TypeDefKind, TypeId, TypeOwner, World,
    WorldId, WorldItem, WorldKey, function_references, part_role, referred,
};
use wit_values::{Items, Table};

/// Whether each named type but an alias refers to types of its owner alone, as seen through
/// types without names. What is shown of each type is told by `shown_by_each`. The only error is
/// want of memory.
pub fn all_refer_to_own(
    alloc: Global,
    types: &[TypeDef],
    shown: &Items<NamedOwners>,
) -> Result<bool, AllocError>
    requires { AreNamedOwners types.now shown.now }
    ensures { IfOk result (λ own. IsTrue own ↔ Each (RefersToOwn types.now) types.now) }
{
    Ok(self::types(alloc, types, shown)?.is_none())
}

/// The first named type but an alias that refers to types of others.
pub fn types(
    alloc: Global,
    types: &[TypeDef],
    shown: &Items<NamedOwners>,
) -> Result<Option<ShapePlace>, AllocError>
    requires { AreNamedOwners types.now shown.now }
    ensures { IfOk result
        (λ found. FindsFirst place.Type_ (λ _. RefersToOwn types.now) types.now found) }
{
    for (index, def) in types.iter().enumerate() {
        if !refers_to_own(alloc, types, shown, def)? {
            return Ok(Some(ShapePlace::Type_(TypeId::from_index(index))));
        }
    }
    Ok(None)
}

fn refers_to_own(
    alloc: Global,
    types: &[TypeDef],
    shown: &Items<NamedOwners>,
    def: &TypeDef,
) -> Result<bool, AllocError>
    requires { AreNamedOwners types.now shown.now }
    ensures { IfOk result (λ own. IsTrue own ↔ RefersToOwn types.now def.now) }
{
    if def.name.is_none() {
        return Ok(true);
    }
    let ids = parts(alloc, &def.kind)?;
    Ok(are_own(types, shown, def.owner, ids.as_slice()))
}

/// What a kind refers to, other than as an alias.
fn parts(alloc: Global, kind: &TypeDefKind) -> Result<Items<TypeId>, AllocError>
    ensures { IfOk result (λ ids. ids ≡ parts kind.now) }
{
    match part_role(kind) {
        PartRole::Target => Ok(Items::new(alloc)),
        _ => referred(alloc, kind),
    }
}

fn are_own(types: &[TypeDef], shown: &Items<NamedOwners>, owner: TypeOwner, ids: &[TypeId]) -> bool
    requires { AreNamedOwners types.now shown.now }
    ensures { IsTrue result ↔ Each (IsOwn types.now owner) ids.now }
{
    ids.iter().all(|id| is_own(types, shown, owner, *id))
}

/// Whether each function of each interface refers to types of the interface alone, as seen through
/// types without names. What is shown of each type is told by `shown_by_each`. The only error is
/// want of memory.
pub fn all_functions_use_own(
    alloc: Global,
    types: &[TypeDef],
    shown: &Items<NamedOwners>,
    interfaces: &[Interface],
) -> Result<bool, AllocError>
    requires { AreNamedOwners types.now shown.now }
    ensures { IfOk result (λ own. IsTrue own ↔ EachAt (FunctionsUseOwn types.now) interfaces.now) }
{
    Ok(functions(alloc, types, shown, interfaces)?.is_none())
}

/// The first function of an interface that refers to types of others.
pub fn functions(
    alloc: Global,
    types: &[TypeDef],
    shown: &Items<NamedOwners>,
    interfaces: &[Interface],
) -> Result<Option<ShapePlace>, AllocError>
    requires { AreNamedOwners types.now shown.now }
    ensures { IfOk result (λ found.
        FindsWithin place.Function (λ f (interface : Interface) (e : List ℕ × Function).
        UsesOwn types.now (owners.Interface f) e.1)
        (λ (interface : Interface). interface.functions) interfaces.now found) }
{
    for (index, interface) in interfaces.iter().enumerate() {
        let owner = InterfaceId::from_index(index);
        if let Some(at) = function_of_others(alloc, types, shown, owner, interface)? {
            return Ok(Some(ShapePlace::Function(owner, at)));
        }
    }
    Ok(None)
}

/// The first function of an interface that refers to types of others.
fn function_of_others(
    alloc: Global,
    types: &[TypeDef],
    shown: &Items<NamedOwners>,
    owner: InterfaceId,
    interface: &Interface,
) -> Result<Option<usize>, AllocError>
    requires { AreNamedOwners types.now shown.now }
    ensures { IfOk result (λ found.
        FindsFirst (λ i. i)
        (λ _ (e : List ℕ × Function). UsesOwn types.now (owners.Interface owner) e.1)
        interface.now.functions found) }
{
    for index in 0..interface.functions.len() {
        let (_, function) = interface.functions.entry_at(index);
        if !uses_own(alloc, types, shown, TypeOwner::Interface(owner), function)? {
            return Ok(Some(index));
        }
    }
    Ok(None)
}

/// Whether a function refers to types of an owner alone.
fn uses_own(
    alloc: Global,
    types: &[TypeDef],
    shown: &Items<NamedOwners>,
    owner: TypeOwner,
    function: &Function,
) -> Result<bool, AllocError>
    requires { AreNamedOwners types.now shown.now }
    ensures { IfOk result (λ own. IsTrue own ↔ UsesOwn types.now owner function.now) }
{
    let ids = function_references(alloc, function)?;
    Ok(are_own(types, shown, owner, ids.as_slice()))
}

/// Whether each function that worlds import refers to types of its world alone, as seen through
/// types without names. What is shown of each type is told by `shown_by_each`. The only error is
/// want of memory.
pub fn all_imports_use_own(
    alloc: Global,
    types: &[TypeDef],
    shown: &Items<NamedOwners>,
    worlds: &[World],
) -> Result<bool, AllocError>
    requires { AreNamedOwners types.now shown.now }
    ensures { IfOk result (λ own.
        IsTrue own
        ↔ EachAt (λ w (world : World). EntriesUseOwn types.now w world.imports) worlds.now) }
{
    Ok(imports(alloc, types, shown, worlds)?.is_none())
}

/// The first function that a world imports and that refers to types of others.
pub fn imports(
    alloc: Global,
    types: &[TypeDef],
    shown: &Items<NamedOwners>,
    worlds: &[World],
) -> Result<Option<ShapePlace>, AllocError>
    requires { AreNamedOwners types.now shown.now }
    ensures { IfOk result (λ found.
        FindsWithin place.Import (λ w (world : World) (e : Entry). ItemUsesOwn types.now w e.1)
        (λ (world : World). world.imports) worlds.now found) }
{
    for (index, world) in worlds.iter().enumerate() {
        let owner = WorldId::from_index(index);
        if let Some(at) = entry_of_others(alloc, types, shown, owner, &world.imports)? {
            return Ok(Some(ShapePlace::Import(owner, at)));
        }
    }
    Ok(None)
}

/// Whether each function that worlds export refers to types of its world alone, as seen through
/// types without names. What is shown of each type is told by `shown_by_each`. The only error is
/// want of memory.
pub fn all_exports_use_own(
    alloc: Global,
    types: &[TypeDef],
    shown: &Items<NamedOwners>,
    worlds: &[World],
) -> Result<bool, AllocError>
    requires { AreNamedOwners types.now shown.now }
    ensures { IfOk result (λ own.
        IsTrue own
        ↔ EachAt (λ w (world : World). EntriesUseOwn types.now w world.exports) worlds.now) }
{
    Ok(exports(alloc, types, shown, worlds)?.is_none())
}

/// The first function that a world exports and that refers to types of others.
pub fn exports(
    alloc: Global,
    types: &[TypeDef],
    shown: &Items<NamedOwners>,
    worlds: &[World],
) -> Result<Option<ShapePlace>, AllocError>
    requires { AreNamedOwners types.now shown.now }
    ensures { IfOk result (λ found.
        FindsWithin place.Export (λ w (world : World) (e : Entry). ItemUsesOwn types.now w e.1)
        (λ (world : World). world.exports) worlds.now found) }
{
    for (index, world) in worlds.iter().enumerate() {
        let owner = WorldId::from_index(index);
        if let Some(at) = entry_of_others(alloc, types, shown, owner, &world.exports)? {
            return Ok(Some(ShapePlace::Export(owner, at)));
        }
    }
    Ok(None)
}

/// The first function among the entries of a world that refers to types of others.
fn entry_of_others(
    alloc: Global,
    types: &[TypeDef],
    shown: &Items<NamedOwners>,
    owner: WorldId,
    entries: &Table<WorldKey, WorldItem>,
) -> Result<Option<usize>, AllocError>
    requires { AreNamedOwners types.now shown.now }
    ensures { IfOk result (λ found.
        FindsFirst (λ i. i) (λ _ (e : Entry). ItemUsesOwn types.now owner e.1) entries.now
        found) }
{
    for index in 0..entries.len() {
        let (_, item) = entries.entry_at(index);
        if !item_uses_own(alloc, types, shown, owner, item)? {
            return Ok(Some(index));
        }
    }
    Ok(None)
}

fn item_uses_own(
    alloc: Global,
    types: &[TypeDef],
    shown: &Items<NamedOwners>,
    owner: WorldId,
    item: &WorldItem,
) -> Result<bool, AllocError>
    requires { AreNamedOwners types.now shown.now }
    ensures { IfOk result (λ own. IsTrue own ↔ ItemUsesOwn types.now owner item.now) }
{
    match item {
        WorldItem::Function(function) => uses_own(
            alloc,
            types,
            shown,
            TypeOwner::World(owner),
            function,
        ),
        WorldItem::Interface { .. } | WorldItem::Type_ { .. } => Ok(true),
    }
}
