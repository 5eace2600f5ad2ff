//! Clauses that packages are asked for too, by the searches of `wit_shape`.
ghost use Rattle.std.specs.Prelude.{◌≡◌, ℕ, List, None, IfOk, IfSome};
ghost use Rattle.std.specs.Option.{option_and_then};
ghost use Rattle.wit_data.specs.Entries.{Entry, IsExport, IsImport, ItemUsesOwn};
ghost use Rattle.wit_data.specs.Kind.{type_references};
ghost use Rattle.wit_data.specs.Ownership.{AliasesNamed, IsListed, IsPlain, IsTypeOf, RefersToOwn, UsesOwn};
ghost use Rattle.wit_data.specs.declared.function.Function.{Function};
ghost use Rattle.wit_data.specs.declared.interface.Interface.{Interface};
ghost use Rattle.wit_data.specs.declared.types.TypeDef.{TypeDef};
ghost use Rattle.wit_data.specs.declared.types.TypeOwner.TheVariants as owner;
ghost use Rattle.wit_data.specs.declared.world.World.{World};
ghost use Rattle.wit_digraph.specs.Relation.{IsAcyclic};
ghost use Rattle.wit_graph_faults.specs.Faults.{FindsUnnamedAgain};
ghost use Rattle.wit_graph_faults.specs.declared.place.GraphPlace.TheVariants as place;
ghost use Rattle.wit_graph_faults.specs.steps.Places.{graph_place};
ghost use Rattle.wit_names.specs.UsePath.{IsKebabName};
ghost use Rattle.wit_shape.specs.First.{FindsFirst, FindsWithin};

use crate::place::GraphPlace;
use std::alloc::{AllocError, Global};
use wit_data::{Interface, TypeDef, World};
use wit_shape::named_owners::shown_by_each;
use wit_shape::{ShapePlace, names, own, owners, references, worlds};

/// What was found, as a place of a graph.
fn in_graph(found: Option<ShapePlace>) -> Option<GraphPlace>
    ensures { result ≡ option_and_then graph_place found }
{
    match found? {
        ShapePlace::Interface(id) => Some(GraphPlace::Interface(id)),
        ShapePlace::World(id) => Some(GraphPlace::World(id)),
        ShapePlace::Type_(id) => Some(GraphPlace::Type_(id)),
        ShapePlace::InterfaceType(id, index) => Some(GraphPlace::InterfaceType(id, index)),
        ShapePlace::Function(id, index) => Some(GraphPlace::Function(id, index)),
        ShapePlace::Import(id, index) => Some(GraphPlace::Import(id, index)),
        ShapePlace::Export(id, index) => Some(GraphPlace::Export(id, index)),
        ShapePlace::Name
        | ShapePlace::ForeignDepSpans
        | ShapePlace::UnknownTypeSpans
        | ShapePlace::RequiredResource(_)
        | ShapePlace::ForeignItem(_, _)
        | ShapePlace::Include(_, _) => None,
    }
}

/// The first interface with a name that is no kebab name.
pub(crate) fn interface_names(interfaces: &[Interface]) -> Option<GraphPlace>
    ensures { FindsFirst place.Interface
        (λ _ (interface : Interface). IfSome interface.name IsKebabName) interfaces.now result }
{
    in_graph(names::interfaces(interfaces))
}

/// The first type that its owner doesn't list, or that has a name without an owner.
pub(crate) fn listed(
    interfaces: &[Interface],
    worlds: &[World],
    types: &[TypeDef],
) -> Result<Option<GraphPlace>, AllocError>
    ensures { IfOk result (λ found.
        FindsFirst place.Type_
        (λ i (def : TypeDef). IsListed interfaces.now worlds.now i def.name def.owner)
        types.now found) }
{
    Ok(in_graph(owners::listed(interfaces, worlds, types)?))
}

/// The first type that an interface lists and that isn't its own of that name.
pub(crate) fn own_types(types: &[TypeDef], interfaces: &[Interface]) -> Option<GraphPlace>
    ensures { FindsWithin place.InterfaceType (λ f (interface : Interface) (e : List ℕ × ℕ).
        IsTypeOf types.now (owner.Interface f) e.0 e.1)
        (λ (interface : Interface). interface.types) interfaces.now result }
{
    in_graph(owners::own_types(types, interfaces))
}

/// The first function that stands under another name.
pub(crate) fn functions(interfaces: &[Interface]) -> Option<GraphPlace>
    ensures { FindsWithin place.Function
        (λ _ (interface : Interface) (e : List ℕ × Function). e.1.name ≡ e.0)
        (λ (interface : Interface). interface.functions) interfaces.now result }
{
    in_graph(owners::functions(interfaces))
}

/// The first alias of a type that names none that it may.
pub(crate) fn aliases(types: &[TypeDef], interfaces: &[Interface]) -> Option<GraphPlace>
    ensures { FindsFirst place.Type_ (λ _. AliasesNamed types.now interfaces.now) types.now result }
{
    in_graph(references::aliases(types, interfaces))
}

/// The first type without a name that is an alias or a resource.
pub(crate) fn unnamed(types: &[TypeDef]) -> Option<GraphPlace>
    ensures { FindsFirst place.Type_ (λ _ (def : TypeDef). (def.name ≡ None) → IsPlain def.kind)
        types.now result }
{
    in_graph(references::unnamed(types))
}

/// The first named type but an alias that refers to types of others.
pub(crate) fn refers_to_own(
    alloc: Global,
    types: &[TypeDef],
) -> Result<Option<GraphPlace>, AllocError>
    requires { IsAcyclic (type_references types.now) }
    ensures { IfOk result
        (λ found. FindsFirst place.Type_ (λ _. RefersToOwn types.now) types.now found) }
{
    let shown = shown_by_each(alloc, types)?;
    Ok(in_graph(own::types(alloc, types, &shown)?))
}

/// The first function of an interface that refers to types of others.
pub(crate) fn functions_use_own(
    alloc: Global,
    types: &[TypeDef],
    interfaces: &[Interface],
) -> Result<Option<GraphPlace>, AllocError>
    requires { IsAcyclic (type_references types.now) }
    ensures { IfOk result (λ found.
        FindsWithin place.Function (λ f (interface : Interface) (e : List ℕ × Function).
        UsesOwn types.now (owner.Interface f) e.1)
        (λ (interface : Interface). interface.functions) interfaces.now found) }
{
    let shown = shown_by_each(alloc, types)?;
    Ok(in_graph(own::functions(alloc, types, &shown, interfaces)?))
}

/// The first function that a world imports and that refers to types of others.
pub(crate) fn imports_use_own(
    alloc: Global,
    types: &[TypeDef],
    worlds: &[World],
) -> Result<Option<GraphPlace>, AllocError>
    requires { IsAcyclic (type_references types.now) }
    ensures { IfOk result (λ found.
        FindsWithin place.Import (λ w (world : World) (e : Entry). ItemUsesOwn types.now w e.1)
        (λ (world : World). world.imports) worlds.now found) }
{
    let shown = shown_by_each(alloc, types)?;
    Ok(in_graph(own::imports(alloc, types, &shown, worlds)?))
}

/// The first function that a world exports and that refers to types of others.
pub(crate) fn exports_use_own(
    alloc: Global,
    types: &[TypeDef],
    worlds: &[World],
) -> Result<Option<GraphPlace>, AllocError>
    requires { IsAcyclic (type_references types.now) }
    ensures { IfOk result (λ found.
        FindsWithin place.Export (λ w (world : World) (e : Entry). ItemUsesOwn types.now w e.1)
        (λ (world : World). world.exports) worlds.now found) }
{
    let shown = shown_by_each(alloc, types)?;
    Ok(in_graph(own::exports(alloc, types, &shown, worlds)?))
}

/// The first import that may not stand under its key.
pub(crate) fn imports(
    interfaces: &[Interface],
    types: &[TypeDef],
    worlds: &[World],
) -> Option<GraphPlace>
    ensures { FindsWithin place.Import
        (λ w (world : World) (e : Entry). IsImport interfaces.now types.now w e.0 e.1)
        (λ (world : World). world.imports) worlds.now result }
{
    in_graph(worlds::imports(interfaces, types, worlds))
}

/// The first export that may not stand under its key.
pub(crate) fn exports(interfaces: &[Interface], worlds: &[World]) -> Option<GraphPlace>
    ensures { FindsWithin place.Export
        (λ _ (world : World) (e : Entry). IsExport interfaces.now e.0 e.1)
        (λ (world : World). world.exports) worlds.now result }
{
    in_graph(worlds::exports(interfaces, worlds))
}

/// The first interface without a name that stands in a second place.
pub(crate) fn once(
    alloc: Global,
    interfaces: &[Interface],
    worlds: &[World],
) -> Result<Option<GraphPlace>, AllocError>
    ensures { IfOk result (λ found. FindsUnnamedAgain interfaces.now worlds.now found) }
{
    Ok(in_graph(worlds::once(alloc, interfaces, worlds)?))
}
