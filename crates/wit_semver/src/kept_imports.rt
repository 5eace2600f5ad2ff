//! What stays of the imports of a world, and the types that what stays and the exports bring.
ghost use Rattle.std.specs.Prelude.{◌≡◌, ◌++◌, ◌∷◌, [], ℕ, List, IfOk, None, OnOk, is_some, map, nat_eq};
ghost use Rattle.std.specs.List.{flat_map, list_any};
ghost use Rattle.std.specs.Map.{lookup};
ghost use Rattle.wit_data.specs.contracts.world.WorldKeyPartialEq.TheImpl.{eq-value};
ghost use Rattle.wit_data.specs.declared.world.WorldKey.{WorldKey};
ghost use Rattle.wit_elaboration.specs.Entries.{key_interface};
ghost use Rattle.wit_semver.specs.SemverMerged.{entry_types, kept_imports};
ghost use Rattle.wit_semver.specs.steps.Replacing.{IsSemverMergeReady, semver_merge_of};

use crate::semver_merge_plan::{SemverMergePlan, replacement_of};
use std::alloc::{AllocError, Global};
use wit_data::{InterfaceId, Items, Names, Table, TypeId, WorldItem, WorldKey};
use wit_graph_data::Graph;
use wit_values::try_clone_two;

impl<'a> SemverMergePlan<'a> {
    /// Copies of the imports of the world that aren't replaced.
    pub(crate) fn kept_imports(
        &self,
        alloc: Global,
    ) -> Result<Table<WorldKey, WorldItem>, AllocError>
        requires { IsSemverMergeReady self.now }
        ensures { IfOk result (λ imports. imports ≡ kept_imports (semver_merge_of self.now)) }
    {
        let mut imports = Table::new(alloc);
        for (key, item) in self.world.imports.iter() {
            if !is_replaced(&self.replaced, key) {
                push_copy(&mut imports, key, item)?;
            }
        }
        Ok(imports)
    }
}

/// Whether a key is that of a replaced interface.
fn is_replaced(replaced: &Table<InterfaceId, InterfaceId>, key: &WorldKey) -> bool
    ensures { result
        ≡ list_any (λ i. is_some (lookup (nat_eq i) replaced.now)) (key_interface key.now) }
{
    match key {
        WorldKey::Interface(id) => replacement_of(replaced, *id).is_some(),
        WorldKey::Name(_) => false,
    }
}

/// Adds a copy of an entry at the end, whose key is new.
fn push_copy(
    entries: &mut Table<WorldKey, WorldItem>,
    key: &WorldKey,
    item: &WorldItem,
) -> Result<(), AllocError>
    requires { lookup (eq-value.it key.now) entries.old ≡ None }
    ensures { OnOk result (entries.new ≡ entries.old ++ (key.now, item.now) ∷ []) }
{
    let (key, item) = try_clone_two(key, item)?;
    entries.push(key, item)
}

/// The types of some imports and exports: those of interfaces, and those that are entries themselves.
pub(crate) fn types_of_entries(
    alloc: Global,
    graph: &Graph,
    imports: &Table<WorldKey, WorldItem>,
    exports: &Table<WorldKey, WorldItem>,
) -> Result<Items<TypeId>, AllocError>
    ensures { IfOk result (λ ids.
        ids
        ≡ flat_map (entry_types graph.now.interfaces) imports.now
        ++ flat_map (entry_types graph.now.interfaces) exports.now) }
{
    let mut ids = Items::new(alloc);
    push_entries(graph, imports, &mut ids)?;
    push_entries(graph, exports, &mut ids)?;
    Ok(ids)
}

/// Adds the types of some entries.
fn push_entries(
    graph: &Graph,
    entries: &Table<WorldKey, WorldItem>,
    ids: &mut Items<TypeId>,
) -> Result<(), AllocError>
    ensures { OnOk result
        (ids.new ≡ ids.old ++ flat_map (entry_types graph.now.interfaces) entries.now) }
{
    for (_, item) in entries.iter() {
        push_item(graph, item, ids)?;
    }
    Ok(())
}

/// Adds the types of an item.
fn push_item(graph: &Graph, item: &WorldItem, ids: &mut Items<TypeId>) -> Result<(), AllocError>
    ensures { OnOk result
        ((k : WorldKey) → ids.new ≡ ids.old ++ entry_types graph.now.interfaces (k, item.now)) }
{
    match item {
        WorldItem::Interface { id, .. } => match graph.interfaces.get(id.index()) {
            Some(interface) => push_types(&interface.types, ids),
            None => Ok(()),
        },
        WorldItem::Function(_) => Ok(()),
        WorldItem::Type_ { id, .. } => ids.push(*id),
    }
}

/// Adds the types of a table.
fn push_types(types: &Names<TypeId>, ids: &mut Items<TypeId>) -> Result<(), AllocError>
    ensures { OnOk result (ids.new ≡ ids.old ++ map (λ (e : List ℕ × ℕ). e.1) types.now) }
{
    for (_, id) in types.iter() {
        ids.push(*id)?;
    }
    Ok(())
}
