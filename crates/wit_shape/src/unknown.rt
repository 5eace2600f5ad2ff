//! What a package knows of the types of other packages.
ghost use Rattle.std.specs.Prelude.{◌≡◌, ◌↔◌, ◌<◌, ℕ, List, IfOk, IsTrue};
ghost use Rattle.wit_data.specs.Each.{SomeAt};
ghost use Rattle.wit_data.specs.Foreign.{IsForeignType};
ghost use Rattle.wit_data.specs.declared.types.TypeDef.{TypeDef};
ghost use Rattle.wit_data.specs.declared.types.TypeDefKind.TheVariants as kind;
ghost use Rattle.wit_shape.specs.Faults.{IsUnknownBelow, Tells};
ghost use Rattle.wit_shape.specs.First.{FindsFirst};
ghost use Rattle.wit_shape.specs.declared.clause.ShapeClause.TheVariants.{UnknownAlone, UnknownFirst, UnknownForeign, UnknownRequired};

use crate::place::ShapePlace;
use std::alloc::{AllocError, Global};
use wit_data::{
    Interface, InterfaceId, TypeDef, TypeDefKind, TypeId, TypeOwner, UnresolvedPackage,
    foreign_interfaces,
};

/// The first type that is of kind `Unknown` and has no span, or has one and is of another kind; or the spans, where
/// there are more of them than types.
pub(crate) fn first(unresolved: &UnresolvedPackage) -> Option<ShapePlace>
    ensures { Tells unresolved.now UnknownFirst result }
{
    let unknown = unresolved.unknown_type_spans.len();
    let types = unresolved.types.as_slice();
    if types.len() < unknown {
        return Some(ShapePlace::UnknownTypeSpans);
    }
    for (index, def) in types.iter().enumerate() {
        if !is_unknown_below(unknown, index, def) {
            return Some(ShapePlace::Type_(TypeId::from_index(index)));
        }
    }
    None
}

/// Whether a type is of kind `Unknown` exactly if its index is below a bound.
fn is_unknown_below(unknown: usize, index: usize, def: &TypeDef) -> bool
    ensures { IsTrue result ↔ IsUnknownBelow unknown index def.now }
{
    if index < unknown {
        is_unknown(def)
    } else {
        !is_unknown(def)
    }
}

/// Whether a type is known by its name alone.
pub fn is_unknown(def: &TypeDef) -> bool
    ensures { IsTrue result ↔ (def.now.kind ≡ kind.Unknown) }
{
    matches!(def.kind, TypeDefKind::Unknown)
}

/// The first type with a span that isn't a named one of an interface of another package.
pub(crate) fn foreign_types(
    alloc: Global,
    unresolved: &UnresolvedPackage,
) -> Result<Option<ShapePlace>, AllocError>
    ensures { IfOk result (λ found. Tells unresolved.now UnknownForeign found) }
{
    let unknown = unresolved.unknown_type_spans.len();
    let foreign = foreign_interfaces(alloc, &unresolved.foreign_deps)?.len();
    for (index, def) in unresolved.types.as_slice().iter().enumerate() {
        if !is_foreign_if_unknown(unknown, foreign, index, def) {
            return Ok(Some(ShapePlace::Type_(TypeId::from_index(index))));
        }
    }
    Ok(None)
}

/// Whether a type is one of a foreign interface, if its index is below a bound.
fn is_foreign_if_unknown(unknown: usize, foreign: usize, index: usize, def: &TypeDef) -> bool
    ensures { IsTrue result ↔ (index < unknown → IsForeignType foreign def.now) }
{
    index >= unknown || is_foreign_type(foreign, def)
}

/// Whether a type is a named one of the first so many interfaces.
fn is_foreign_type(foreign: usize, def: &TypeDef) -> bool
    ensures { IsTrue result ↔ IsForeignType foreign def.now }
{
    match def.owner {
        TypeOwner::Interface(id) => id.index() < foreign && def.name.is_some(),
        TypeOwner::World(_) | TypeOwner::None => false,
    }
}

/// The first type that an interface of another package lists and that has no span.
pub(crate) fn listed_types(
    alloc: Global,
    unresolved: &UnresolvedPackage,
) -> Result<Option<ShapePlace>, AllocError>
    ensures { IfOk result (λ found. Tells unresolved.now UnknownAlone found) }
{
    let unknown = unresolved.unknown_type_spans.len();
    let foreign = foreign_interfaces(alloc, &unresolved.foreign_deps)?.len();
    for (index, interface) in unresolved.interfaces.as_slice().iter().enumerate() {
        if let Some(at) = type_that_is_known(unknown, foreign, index, interface) {
            let id = InterfaceId::from_index(index);
            return Ok(Some(ShapePlace::InterfaceType(id, at)));
        }
    }
    Ok(None)
}

/// The first type past a bound that an interface lists, if it is one of the first so many interfaces.
fn type_that_is_known(
    unknown: usize,
    foreign: usize,
    interface_index: usize,
    interface: &Interface,
) -> Option<usize>
    ensures { FindsFirst (λ i. i) (λ _ (e : List ℕ × ℕ). interface_index < foreign → e.1 < unknown)
        interface.now.types result }
{
    for index in 0..interface.types.len() {
        let (_, id) = interface.types.entry_at(index);
        if interface_index < foreign && id.index() >= unknown {
            return Some(index);
        }
    }
    None
}

/// The first type that has to be a resource and isn't of kind `Unknown`.
pub(crate) fn required(unresolved: &UnresolvedPackage) -> Option<ShapePlace>
    ensures { Tells unresolved.now UnknownRequired result }
{
    let types = unresolved.types.as_slice();
    for (index, item) in unresolved
        .required_resource_types
        .as_slice()
        .iter()
        .enumerate()
    {
        if !is_unknown_at(types, item.0) {
            return Some(ShapePlace::RequiredResource(index));
        }
    }
    None
}

/// Whether there is such a type, of kind `Unknown`.
fn is_unknown_at(types: &[TypeDef], id: TypeId) -> bool
    ensures { IsTrue result ↔ SomeAt types.now id (λ (def : TypeDef). def.kind ≡ kind.Unknown) }
{
    match types.get(id.index()) {
        Some(def) => is_unknown(def),
        None => false,
    }
}
