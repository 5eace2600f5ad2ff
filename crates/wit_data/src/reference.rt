//! What types and functions refer to.
ghost use Rattle.std.specs.Prelude.{◌≡◌, ◌++◌, IfOk, OnOk};
ghost use Rattle.std.specs.List.{flat_map};
ghost use Rattle.wit_data.specs.Kind.{function_references, named_option, named_type, referred, type_references};
ghost use Rattle.wit_data.specs.declared.function.Param.{Param};

use crate::function::{Function, Param};
use crate::ids::TypeId;
use crate::kind::push_kind;
use crate::types::{Type_, TypeDef, TypeDefKind};
use std::alloc::{AllocError, Global};
use wit_values::Items;

/// The types that a kind refers to, in the order in which it names them, with repeats. The only
/// error is want of memory.
pub fn referred(alloc: Global, kind: &TypeDefKind) -> Result<Items<TypeId>, AllocError>
    ensures { IfOk result (λ ids. ids ≡ referred kind.now) }
{
    let mut ids = Items::new(alloc);
    push_kind(&mut ids, kind)?;
    Ok(ids)
}

/// The types that a function refers to: the resource that it belongs to, then those of its
/// parameters and of its result, in order, with repeats. The only error is want of memory.
pub fn function_references(alloc: Global, function: &Function) -> Result<Items<TypeId>, AllocError>
    ensures { IfOk result (λ ids. ids ≡ function_references function.now) }
{
    let mut ids = Items::new(alloc);
    if let Some(resource) = function.kind.resource() {
        ids.push(resource)?;
    }
    push_params(&mut ids, function.params.as_slice())?;
    push_option(&mut ids, function.result_)?;
    Ok(ids)
}

/// Which type refers to which, as adjacency lists: list i has the indices of the types that type i refers to,
/// both from 0. The only error is want of memory.
pub fn type_references(alloc: Global, types: &[TypeDef]) -> Result<Items<Items<usize>>, AllocError>
    ensures { IfOk result (λ rows. rows ≡ type_references types.now) }
{
    let mut rows = Items::new(alloc);
    for def in types {
        let ids = referred(alloc, &def.kind)?;
        rows.push(places(alloc, ids.as_slice())?)?;
    }
    Ok(rows)
}

/// The indices of types in their list, from 0, by their ids. The only error is want of memory.
pub fn places(alloc: Global, ids: &[TypeId]) -> Result<Items<usize>, AllocError>
    ensures { IfOk result (λ places. places ≡ ids.now) }
{
    let mut places = Items::new(alloc);
    for id in ids {
        places.push(id.index())?;
    }
    Ok(places)
}

/// Adds to ids the type of the list that a type is, nothing for a primitive. The only error is want
/// of memory.
pub fn push_type(ids: &mut Items<TypeId>, ty: Type_) -> Result<(), AllocError>
    ensures { OnOk result (ids.new ≡ ids.old ++ named_type ty) }
{
    match ty {
        Type_::Id(id) => ids.push(id),
        _ => Ok(()),
    }
}

pub(crate) fn push_option(ids: &mut Items<TypeId>, ty: Option<Type_>) -> Result<(), AllocError>
    ensures { OnOk result (ids.new ≡ ids.old ++ named_option ty) }
{
    match ty {
        Some(ty) => push_type(ids, ty),
        None => Ok(()),
    }
}

fn push_params(ids: &mut Items<TypeId>, params: &[Param]) -> Result<(), AllocError>
    ensures { OnOk result
        (ids.new ≡ ids.old ++ flat_map (λ (p : Param). named_type p.ty) params.now) }
{
    for param in params {
        push_type(ids, param.ty)?;
    }
    Ok(())
}
