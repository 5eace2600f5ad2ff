//! Whether owners, references and worlds are in order, where no type refers to itself.
ghost use Rattle.std.specs.Prelude.{◌↔◌, IfOk, IsTrue};
ghost use Rattle.wit_elaboration.specs.Valid.{HasOwners, HasReferences, HasWorlds};
ghost use Rattle.wit_data.specs.Kind.{type_references};
ghost use Rattle.wit_shape.specs.steps.NamedOwners.{AreNamedOwners};
ghost use Rattle.wit_digraph.specs.Relation.{IsAcyclic};
ghost use Rattle.wit_validity.specs.steps.Parts.{IsOwned};

use crate::world_homes::{export_own, import_own, include_nothing};
use std::alloc::{AllocError, Global};
use wit_data::{Interface, Items, TypeDef, World};
use wit_graph_data::Graph;
use wit_shape::keys::{interfaces_keys_differ, worlds_keys_differ};
use wit_shape::named_owners::{NamedOwners, shown_by_each};
use wit_shape::own::{
    all_exports_use_own, all_functions_use_own, all_imports_use_own, all_refer_to_own,
};
use wit_shape::owners::{all_list_own, all_name_functions, are_listed};
use wit_shape::references::{all_alias_named, are_plain_if_unnamed};
use wit_shape::worlds::{all_have_exports, all_have_imports, stand_once};

/// Whether owners, references and worlds are in order.
pub(crate) fn is_owned(alloc: Global, graph: &Graph) -> Result<bool, AllocError>
    requires { IsAcyclic (type_references graph.now.types) }
    ensures { IfOk result (λ holds. IsTrue holds ↔ IsOwned graph.now) }
{
    let types = graph.types.as_slice();
    let interfaces = graph.interfaces.as_slice();
    let worlds = graph.worlds.as_slice();
    if !has_owners(types, interfaces, worlds)? {
        return Ok(false);
    }
    let shown = shown_by_each(alloc, types)?;
    if !has_references(alloc, types, interfaces, &shown)? {
        return Ok(false);
    }
    has_worlds(alloc, types, interfaces, worlds, &shown)
}

/// Whether types and functions belong to the interfaces and worlds that list them.
fn has_owners(
    types: &[TypeDef],
    interfaces: &[Interface],
    worlds: &[World],
) -> Result<bool, AllocError>
    ensures { IfOk result (λ holds. IsTrue holds ↔ HasOwners types.now interfaces.now worlds.now) }
{
    interfaces_keys_differ(interfaces);
    if !all_list_own(types, interfaces) {
        return Ok(false);
    }
    if !all_name_functions(interfaces) {
        return Ok(false);
    }
    are_listed(interfaces, worlds, types)
}

/// Whether types and functions refer to what they may, where it is known what each type shows.
fn has_references(
    alloc: Global,
    types: &[TypeDef],
    interfaces: &[Interface],
    shown: &Items<NamedOwners>,
) -> Result<bool, AllocError>
    requires { AreNamedOwners types.now shown.now }
    ensures { IfOk result (λ holds. IsTrue holds ↔ HasReferences types.now interfaces.now) }
{
    if !all_alias_named(types, interfaces) {
        return Ok(false);
    }
    if !are_plain_if_unnamed(types) {
        return Ok(false);
    }
    if !all_refer_to_own(alloc, types, shown)? {
        return Ok(false);
    }
    all_functions_use_own(alloc, types, shown, interfaces)
}

/// Whether worlds hold what they may, where it is known what each type shows.
fn has_worlds(
    alloc: Global,
    types: &[TypeDef],
    interfaces: &[Interface],
    worlds: &[World],
    shown: &Items<NamedOwners>,
) -> Result<bool, AllocError>
    requires { AreNamedOwners types.now shown.now }
    ensures { IfOk result (λ holds. IsTrue holds ↔ HasWorlds types.now interfaces.now worlds.now) }
{
    worlds_keys_differ(worlds);
    if !all_have_imports(interfaces, types, worlds) {
        return Ok(false);
    }
    if !all_have_exports(interfaces, worlds) {
        return Ok(false);
    }
    if !import_own(interfaces, worlds) || !export_own(interfaces, worlds) {
        return Ok(false);
    }
    if !include_nothing(worlds) {
        return Ok(false);
    }
    if !all_imports_use_own(alloc, types, shown, worlds)? {
        return Ok(false);
    }
    if !all_exports_use_own(alloc, types, shown, worlds)? {
        return Ok(false);
    }
    stand_once(alloc, interfaces, worlds)
}
