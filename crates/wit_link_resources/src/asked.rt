//! Which types stand at value positions of what comes into a graph.
ghost use Rattle.std.specs.Prelude.{◌≡◌, ◌++◌, ◌<◌, All, IfOk, OnOk, length, map, nat_eq};
ghost use Rattle.std.specs.List.{flat_map, list_any, range_with_len};
ghost use Rattle.wit_data.specs.declared.types.TypeDef.{TypeDef};
ghost use Rattle.wit_remap_spec.specs.Selected.{selected};
ghost use Rattle.wit_link_resources.specs.steps.Active.{seen};
ghost use Rattle.wit_link_resources.specs.steps.IncomingTypes.{new_of, positions_of};
ghost use Rattle.wit_data.specs.Kind.{signature_types};
ghost use Rattle.wit_remap_spec.specs.steps.Parts.{value_positions};

use crate::incoming::Incoming;
use std::alloc::{AllocError, Global};
use wit_data::{Function, Items, PartRole, TypeDefKind, TypeId, part_role, push_type, referred};

/// For each type that comes, whether it stands at a value position of a new type or of one of these functions.
pub(crate) fn asked(
    alloc: Global,
    incoming: &Incoming<'_>,
    functions: &[&Function],
) -> Result<Items<bool>, AllocError>
    requires { All (λ t. t < length incoming.now.types.now)
        (positions_of incoming.now (seen functions.now)) }
    ensures { IfOk result (λ asked.
        asked
        ≡ map (λ t. list_any (nat_eq t) (positions_of incoming.now (seen functions.now)))
        (range_with_len 0 (length incoming.now.types.now))) }
{
    let ids = positions(alloc, incoming, functions)?;
    marked(alloc, incoming.types.len(), ids.as_slice())
}

/// A flag for each of so many types, whether it is among these, which are all below the count. The
/// only error is want of memory.
fn marked(alloc: Global, count: usize, ids: &[TypeId]) -> Result<Items<bool>, AllocError>
    requires { All (λ id. id < count) ids.now }
    ensures { IfOk result
        (λ marks. marks ≡ map (λ t. list_any (nat_eq t) ids.now) (range_with_len 0 count)) }
{
    let mut marks = Items::from_vec(vec![in alloc; false; count]?);
    for id in ids {
        marks.set(id.index(), true);
    }
    Ok(marks)
}

/// The types at the value positions of new types, then of functions.
fn positions(
    alloc: Global,
    incoming: &Incoming<'_>,
    functions: &[&Function],
) -> Result<Items<TypeId>, AllocError>
    ensures { IfOk result (λ ids. ids ≡ positions_of incoming.now (seen functions.now)) }
{
    let mut ids = Items::new(alloc);
    push_types(alloc, &mut ids, incoming)?;
    for function in functions {
        push_signature(&mut ids, function)?;
    }
    Ok(ids)
}

/// Adds those of new types.
fn push_types(
    alloc: Global,
    ids: &mut Items<TypeId>,
    incoming: &Incoming<'_>,
) -> Result<(), AllocError>
    ensures { OnOk result (ids.new
        ≡ ids.old
        ++ flat_map (λ (def : TypeDef). value_positions def.kind)
        (selected (new_of incoming.now) incoming.now.types.now)) }
{
    for (index, def) in incoming.types.as_slice().iter().enumerate() {
        if incoming.is_new(index) {
            ids.append(value_positions(alloc, &def.kind)?)?;
        }
    }
    Ok(())
}

/// The types at the value positions of a kind: all that it names, but not what an alias or a handle
/// names. The only error is want of memory.
///
/// Source: `update_typedef` of wit-parser 0.263.0.
fn value_positions(alloc: Global, kind: &TypeDefKind) -> Result<Items<TypeId>, AllocError>
    ensures { IfOk result (λ ids. ids ≡ value_positions kind.now) }
{
    match part_role(kind) {
        PartRole::Value => referred(alloc, kind),
        _ => Ok(Items::new(alloc)),
    }
}

/// Adds the types at the value positions of a function: those of its parameters and of its result.
/// Where there is no memory, some of them may have been added.
///
/// Source: `update_function` of wit-parser 0.263.0.
fn push_signature(ids: &mut Items<TypeId>, function: &Function) -> Result<(), AllocError>
    ensures { OnOk result (ids.new ≡ ids.old ++ signature_types function.now) }
{
    for param in function.params.as_slice() {
        push_type(ids, param.ty)?;
    }
    match function.result_ {
        Some(ty) => push_type(ids, ty),
        None => Ok(()),
    }
}
