//! The exports of a world, each interface after the exported ones that it uses, and what they need
//! imported.
ghost use Rattle.std.specs.Prelude.{◌≡◌, ◌++◌, ◌∷◌, ◌<◌, [], not, OnOk, IfOk, All, filter, length, map};
ghost use Rattle.std.specs.List.{flat_map};
ghost use Rattle.std.specs.Map.{keys_of};
ghost use Rattle.wit_elaboration.specs.Elaborated.{dependencies_before, dependency_of, export_needs, inherited_by_export};
ghost use Rattle.wit_elaboration.specs.steps.Elaborating.{IsExporting, is_listed};
ghost use Rattle.wit_elaboration.specs.Entries.{fresh_entries};
ghost use Rattle.wit_digraph.specs.Relation.{IsAcyclic};
ghost use Rattle.wit_elaboration.specs.steps.Parts.{export_with_needs, is_interface, exported_interfaces};

use crate::entries::{InheritedData, Lists, add_copy, add_dependencies, export_data};
use crate::imports::{list_needs, order_from};
use crate::role::{Role, item_interface};
use std::alloc::{AllocError, Global};
use wit_data::{InterfaceId, WorldItem, WorldKey};
use wit_digraph::Listing;
use wit_values::{Items, Table};

/// Some interfaces, those that are exported and the others apart.
#[derive(Drop)]
struct Parted {
    exported: Items<usize>,
    others: Items<usize>,
}

/// Parts interfaces by whether they are exported.
fn part_by_export(
    alloc: Global,
    exported: &Listing,
    interfaces: &[usize],
) -> Result<Parted, AllocError>
    requires { All (λ i. i < exported.now.nodes) interfaces.now }
    ensures exported { IfOk result
        (λ p. p.exported ≡ filter (is_listed exported.now) interfaces.now) }
    ensures others { IfOk result
        (λ p. p.others ≡ filter (λ i. not (is_listed exported.now i)) interfaces.now) }
{
    let mut parted = Parted {
        exported: Items::new(alloc),
        others: Items::new(alloc),
    };
    for interface in interfaces {
        if exported.has(*interface) {
            parted.exported.push(*interface)?;
        } else {
            parted.others.push(*interface)?;
        }
    }
    Ok(parted)
}

/// Exports those of some interfaces that are exported, and imports the others.
fn add_parted(lists: &mut Lists, carried: &InheritedData, parted: &Parted) -> Result<(), AllocError>
    ensures exports { OnOk result (lists.new.exports
        ≡ lists.old.exports
        ++ fresh_entries (keys_of lists.old.exports)
        (map (dependency_of carried.now) parted.now.exported)) }
    ensures imports { OnOk result (lists.new.imports
        ≡ lists.old.imports
        ++ fresh_entries (keys_of lists.old.imports)
        (map (dependency_of carried.now) parted.now.others)) }
{
    add_dependencies(&mut lists.exports, carried, parted.exported.as_slice())?;
    add_dependencies(&mut lists.imports, carried, parted.others.as_slice())
}

/// Exports those of some interfaces that are exported, and imports the others, with what an export
/// carries.
fn add_walked(
    alloc: Global,
    exported: &Listing,
    lists: &mut Lists,
    item: &WorldItem,
    interfaces: &[usize],
) -> Result<(), AllocError>
    requires { All (λ i. i < exported.now.nodes) interfaces.now }
    ensures exports { OnOk result (lists.new.exports
        ≡ lists.old.exports
        ++ fresh_entries (keys_of lists.old.exports)
        (map (dependency_of (inherited_by_export item.now))
        (filter (is_listed exported.now) interfaces.now))) }
    ensures imports { OnOk result (lists.new.imports
        ≡ lists.old.imports
        ++ fresh_entries (keys_of lists.old.imports)
        (map (dependency_of (inherited_by_export item.now))
        (filter (λ i. not (is_listed exported.now i)) interfaces.now))) }
{
    let parted = part_by_export(alloc, exported, interfaces)?;
    let carried = export_data(item)?;
    let added = add_parted(lists, &carried, &parted);
    drop(carried);
    added
}

/// Exports an interface after the exported ones that it needs, and imports the others that it needs.
fn export_entry(
    alloc: Global,
    uses: &[Items<usize>],
    exported: &Listing,
    walked: &mut Listing,
    lists: &mut Lists,
    key: &WorldKey,
    item: &WorldItem,
    interface: InterfaceId,
) -> Result<(), AllocError>
    requires acyclic { IsAcyclic uses.now }
    requires interface { interface < length uses.now }
    requires exported { exported.now.nodes ≡ length uses.now }
    requires state { IsExporting uses.now (is_listed exported.now) walked.old lists.old.imports
        lists.old.exports }
    ensures exports { OnOk result (lists.new.exports
        ≡ lists.old.exports
        ++ fresh_entries (keys_of lists.old.exports)
        (map (dependency_of (inherited_by_export item.now))
        (filter (is_listed exported.now)
        (dependencies_before uses.now (Role.Instance interface)))
        ++ (key.now, item.now) ∷ [])) }
    ensures imports { OnOk result (lists.new.imports
        ≡ lists.old.imports
        ++ fresh_entries (keys_of lists.old.imports)
        (map (dependency_of (inherited_by_export item.now))
        (filter (λ i. not (is_listed exported.now i))
        (dependencies_before uses.now (Role.Instance interface))))) }
    ensures state { OnOk result (IsExporting uses.now (is_listed exported.now) walked.new
        lists.new.imports lists.new.exports) }
    ensures nodes { walked.new.nodes ≡ walked.old.nodes }
{
    let start = walked.order().len();
    list_needs(alloc, uses, walked, Role::Instance(interface))?;
    add_walked(alloc, exported, lists, item, order_from(walked, start))?;
    add_copy(&mut lists.exports, key, item)
}

/// Adds copies of the exported functions.
pub(crate) fn add_functions(
    exports: &mut Table<WorldKey, WorldItem>,
    listed: &Table<WorldKey, WorldItem>,
) -> Result<(), AllocError>
    ensures { OnOk result (exports.new
        ≡ exports.old
        ++ fresh_entries (keys_of exports.old)
        (filter (λ e. not (is_interface e)) listed.now)) }
{
    for (key, item) in listed.iter() {
        match item_interface(item) {
            Some(_) => {}
            None => add_copy(exports, key, item)?,
        }
    }
    Ok(())
}

/// Exports the listed interfaces, each after the exported ones that it needs, and imports the others
/// that they need.
pub(crate) fn export_listed(
    alloc: Global,
    uses: &[Items<usize>],
    exported: &Listing,
    walked: &mut Listing,
    lists: &mut Lists,
    listed: &Table<WorldKey, WorldItem>,
) -> Result<(), AllocError>
    requires acyclic { IsAcyclic uses.now }
    requires in_range { All (λ i. i < length uses.now) (exported_interfaces listed.now) }
    requires exported { exported.now.nodes ≡ length uses.now }
    requires state { IsExporting uses.now (is_listed exported.now) walked.old lists.old.imports
        lists.old.exports }
    ensures exports { OnOk result (lists.new.exports
        ≡ lists.old.exports
        ++ fresh_entries (keys_of lists.old.exports)
        (flat_map (export_with_needs uses.now (is_listed exported.now))
        (filter is_interface listed.now))) }
    ensures imports { OnOk result (lists.new.imports
        ≡ lists.old.imports
        ++ fresh_entries (keys_of lists.old.imports) (flat_map
        (export_needs uses.now (λ i. not (is_listed exported.now i))) listed.now)) }
    ensures nodes { walked.new.nodes ≡ walked.old.nodes }
{
    for (key, item) in listed.iter() {
        if let Some(id) = item_interface(item) {
            export_entry(alloc, uses, exported, walked, lists, key, item, id)?;
        }
    }
    Ok(())
}
