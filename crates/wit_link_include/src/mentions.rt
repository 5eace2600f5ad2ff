//! The types that the entries of a world name.
ghost use Rattle.std.specs.Prelude.{◌≡◌, ℕ, List, ◌++◌, [], IfOk, OnOk, map, slice_get};
ghost use Rattle.std.specs.List.{flat_map};
ghost use Rattle.std.specs.Option.{option_map_or};
ghost use Rattle.wit_data.specs.Kind.{function_references};
ghost use Rattle.wit_data.specs.declared.function.Function.{Function};
ghost use Rattle.wit_link_spec.specs.Include.{entry_mentions};
ghost use Rattle.wit_link_include.specs.steps.Included.{IsOrigin, roots_of};
ghost use Rattle.wit_link_spec.specs.steps.Parts.{interface_mentions};

use crate::origin::Origin;
use std::alloc::{AllocError, Global};
use wit_data::{
    Interface, InterfaceId, Items, Table, TypeId, WorldItem, WorldKey, function_references,
};

/// The types that a world's entries name, with repeats.
pub(crate) fn named_types(alloc: Global, origin: &Origin<'_>) -> Result<Items<TypeId>, AllocError>
    requires { IsOrigin origin.now }
    ensures { IfOk result (λ ids. ids ≡ roots_of origin.now) }
{
    let mut ids = Items::new(alloc);
    push_entries(alloc, &mut ids, origin, &origin.world.imports)?;
    push_entries(alloc, &mut ids, origin, &origin.world.exports)?;
    Ok(ids)
}

/// Adds the types that entries of a world name.
fn push_entries(
    alloc: Global,
    ids: &mut Items<TypeId>,
    origin: &Origin<'_>,
    entries: &Table<WorldKey, WorldItem>,
) -> Result<(), AllocError>
    requires { IsOrigin origin.now }
    ensures { OnOk result (ids.new
        ≡ ids.old
        ++ flat_map (entry_mentions origin.now.graph.now origin.now.world.now) entries.now) }
{
    for (_, item) in entries.iter() {
        push_item(alloc, ids, origin, item)?;
    }
    Ok(())
}

/// Adds the types that an item of a world names.
fn push_item(
    alloc: Global,
    ids: &mut Items<TypeId>,
    origin: &Origin<'_>,
    item: &WorldItem,
) -> Result<(), AllocError>
    requires { IsOrigin origin.now }
    ensures { (k : WorldKey)
        → OnOk result (ids.new
        ≡ ids.old ++ entry_mentions origin.now.graph.now origin.now.world.now (k, item.now)) }
{
    match item {
        WorldItem::Interface { id, .. } => {
            if origin.belonging_interfaces.contains_key(id) {
                push_held(alloc, ids, origin, *id)
            } else {
                Ok(())
            }
        }
        WorldItem::Function(function) => ids.append(function_references(alloc, function)?),
        WorldItem::Type_ { id, .. } => ids.push(*id),
    }
}

/// Adds the types that an interface of the graph names.
fn push_held(
    alloc: Global,
    ids: &mut Items<TypeId>,
    origin: &Origin<'_>,
    id: InterfaceId,
) -> Result<(), AllocError>
    ensures { OnOk result (ids.new
        ≡ ids.old
        ++ option_map_or interface_mentions (slice_get origin.now.graph.now.interfaces id)
        []) }
{
    match origin.graph.interfaces.get(id.index()) {
        Some(interface) => {
            push_types(ids, interface)?;
            push_functions(alloc, ids, interface)
        }
        None => Ok(()),
    }
}

/// Adds the types of an interface's list.
fn push_types(ids: &mut Items<TypeId>, interface: &Interface) -> Result<(), AllocError>
    ensures { OnOk result (ids.new ≡ ids.old ++ map (λ (e : List ℕ × ℕ). e.1) interface.now.types) }
{
    for (_, id) in interface.types.iter() {
        ids.push(*id)?;
    }
    Ok(())
}

/// Adds the types that the functions of an interface refer to.
fn push_functions(
    alloc: Global,
    ids: &mut Items<TypeId>,
    interface: &Interface,
) -> Result<(), AllocError>
    ensures { OnOk result (ids.new
        ≡ ids.old
        ++ flat_map (λ (e : List ℕ × Function). function_references e.1)
        interface.now.functions) }
{
    for (_, function) in interface.functions.iter() {
        ids.append(function_references(alloc, function)?)?;
    }
    Ok(())
}
