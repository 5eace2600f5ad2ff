//! The imports of a world, each after what it needs, and their order by class.
ghost use Rattle.std.specs.Prelude.{◌≡◌, ◌++◌, ◌<◌, ◌≤◌, [], drop, All, OnOk, IfOk, IsTrue, length, map};
ghost use Rattle.std.specs.List.{flat_map};
ghost use Rattle.std.specs.Map.{keys_of};
ghost use Rattle.wit_elaboration.specs.Elaborated.{dependencies_before, dependency_of, import_with_needs, inherited_by_import};
ghost use Rattle.wit_elaboration.specs.steps.Elaborating.{IsImporting, IsPostOrder};
ghost use Rattle.wit_elaboration.specs.Entries.{by_class, fresh_entries, role_of};
ghost use Rattle.wit_elaboration.specs.Sound.{AreSound, IsRoleInRange};
ghost use Rattle.wit_digraph.specs.Relation.{IsAcyclic};
ghost use Rattle.wit_digraph.specs.PostOrder.{fresh};
ghost use Rattle.wit_elaboration.specs.steps.Parts.{of_class};

use crate::entries::{add_copy, add_dependencies, add_import, import_data};
use crate::role::Role;
use std::alloc::{AllocError, Global};
use wit_data::{TypeDef, WorldItem, WorldKey};
use wit_digraph::{Listing, direct_uses};
use wit_values::{Items, Table};

/// How many classes of imports there are.
const CLASSES: u32 = 5;

/// Walks what an item needs, from what was walked on.
pub(crate) fn list_needs(
    alloc: Global,
    uses: &[Items<usize>],
    walked: &mut Listing,
    role: Role,
) -> Result<(), AllocError>
    requires acyclic { IsAcyclic uses.now }
    requires role { IsRoleInRange (length uses.now) role }
    requires post_order { IsPostOrder uses.now walked.old }
    ensures ok { OnOk result (walked.new
        ≡ record walked.old {
          order = walked.old.order
              ++ fresh walked.old.order (dependencies_before uses.now role);
        }) }
    ensures post_order { IsPostOrder uses.now walked.new }
{
    match role {
        Role::Instance(interface) => list_uses(alloc, uses, walked, interface.index()),
        Role::TypeUse(interface) => walked.list_post_order(alloc, uses, interface.index()),
        Role::TypeDefinition | Role::FreeFunction | Role::ResourceFunction => Ok(()),
    }
}

/// Walks the uses of an interface, from what was walked on.
fn list_uses(
    alloc: Global,
    uses: &[Items<usize>],
    walked: &mut Listing,
    interface: usize,
) -> Result<(), AllocError>
    requires acyclic { IsAcyclic uses.now }
    requires interface { interface < length uses.now }
    requires post_order { IsPostOrder uses.now walked.old }
    ensures ok { OnOk result (walked.new
        ≡ record walked.old {
          order = walked.old.order
              ++ fresh walked.old.order
              (dependencies_before uses.now (Role.Instance interface));
        }) }
    ensures post_order { IsPostOrder uses.now walked.new }
{
    for used in direct_uses(uses, interface) {
        walked.list_post_order(alloc, uses, *used)?;
    }
    Ok(())
}

/// What was walked from an index of the order on.
pub(crate) fn order_from(walked: &Listing, start: usize) -> &[usize]
    requires { start ≤ length walked.now.order }
    ensures order { result.now ≡ drop start walked.now.order }
    ensures in_range { All (λ i. i < walked.now.nodes) result.now }
{
    &walked.order()[start..]
}

/// Imports what an entry needs and isn't imported, then the entry.
fn import_entry(
    alloc: Global,
    types: &[TypeDef],
    uses: &[Items<usize>],
    walked: &mut Listing,
    imports: &mut Table<WorldKey, WorldItem>,
    key: &WorldKey,
    item: &WorldItem,
) -> Result<(), AllocError>
    requires acyclic { IsAcyclic uses.now }
    requires role { IsRoleInRange (length uses.now) (role_of types.now item.now) }
    requires state { IsImporting uses.now walked.old imports.old }
    ensures imports { OnOk result (imports.new
        ≡ imports.old
        ++ fresh_entries (keys_of imports.old)
        (import_with_needs types.now uses.now (key.now, item.now))) }
    ensures state { OnOk result (IsImporting uses.now walked.new imports.new) }
    ensures nodes { walked.new.nodes ≡ walked.old.nodes }
{
    let start = walked.order().len();
    list_needs(alloc, uses, walked, Role::of(types, item))?;
    add_needed(types, imports, item, order_from(walked, start))?;
    add_import(imports, key, item)
}

/// Adds interfaces under their own keys, each unless its key is there, with what an import carries.
fn add_needed(
    types: &[TypeDef],
    imports: &mut Table<WorldKey, WorldItem>,
    item: &WorldItem,
    interfaces: &[usize],
) -> Result<(), AllocError>
    ensures { OnOk result (imports.new
        ≡ imports.old
        ++ fresh_entries (keys_of imports.old)
        (map (dependency_of (inherited_by_import types.now item.now)) interfaces.now)) }
{
    let carried = import_data(types, item)?;
    let added = add_dependencies(imports, &carried, interfaces);
    drop(carried);
    added
}

/// Imports the listed entries of one class, each after what it needs.
fn import_class(
    alloc: Global,
    types: &[TypeDef],
    uses: &[Items<usize>],
    walked: &mut Listing,
    imports: &mut Table<WorldKey, WorldItem>,
    listed: &Table<WorldKey, WorldItem>,
    class: u32,
) -> Result<(), AllocError>
    requires acyclic { IsAcyclic uses.now }
    requires listed { AreSound types.now (length uses.now) listed.now }
    requires state { IsImporting uses.now walked.old imports.old }
    ensures imports { OnOk result (imports.new
        ≡ imports.old
        ++ fresh_entries (keys_of imports.old) (flat_map (import_with_needs types.now uses.now)
        (of_class types.now class listed.now))) }
    ensures state { OnOk result (IsImporting uses.now walked.new imports.new) }
    ensures nodes { walked.new.nodes ≡ walked.old.nodes }
{
    for (key, item) in listed.iter() {
        if Role::of(types, item).class() == class {
            import_entry(alloc, types, uses, walked, imports, key, item)?;
        }
    }
    Ok(())
}

/// The listed imports by class, each after what it needs.
pub(crate) fn import_listed(
    alloc: Global,
    types: &[TypeDef],
    uses: &[Items<usize>],
    walked: &mut Listing,
    listed: &Table<WorldKey, WorldItem>,
) -> Result<Table<WorldKey, WorldItem>, AllocError>
    requires acyclic { IsAcyclic uses.now }
    requires listed { AreSound types.now (length uses.now) listed.now }
    requires post_order { IsPostOrder uses.now walked.old }
    requires none { walked.old.order ≡ [] }
    ensures imports { IfOk result (λ imports.
        imports
        ≡ fresh_entries []
        (flat_map (import_with_needs types.now uses.now) (by_class types.now listed.now))) }
    ensures nodes { walked.new.nodes ≡ walked.old.nodes }
{
    let mut imports = Table::new(alloc);
    for class in 0..CLASSES {
        import_class(alloc, types, uses, walked, &mut imports, listed, class)?;
    }
    Ok(imports)
}

/// Adds copies of the entries of one class.
fn add_class(
    types: &[TypeDef],
    sorted: &mut Table<WorldKey, WorldItem>,
    entries: &Table<WorldKey, WorldItem>,
    class: u32,
) -> Result<(), AllocError>
    ensures { OnOk result (sorted.new
        ≡ sorted.old
        ++ fresh_entries (keys_of sorted.old) (of_class types.now class entries.now)) }
{
    for (key, item) in entries.iter() {
        if Role::of(types, item).class() == class {
            add_copy(sorted, key, item)?;
        }
    }
    Ok(())
}

/// Whether no entry is of an earlier class than the one before it. The entries are then sorted by class.
pub(crate) fn are_sorted(types: &[TypeDef], entries: &Table<WorldKey, WorldItem>) -> bool
    ensures { IsTrue result → by_class types.now entries.now ≡ entries.now }
{
    let mut class = 0;
    for (_, item) in entries.iter() {
        let next = Role::of(types, item).class();
        if next < class {
            return false;
        }
        class = next;
    }
    true
}

/// The entries sorted by class, those of one class in their order.
pub(crate) fn sorted_by_class(
    alloc: Global,
    types: &[TypeDef],
    entries: Table<WorldKey, WorldItem>,
) -> Result<Table<WorldKey, WorldItem>, AllocError>
    ensures { IfOk result (λ sorted. sorted ≡ by_class types.now entries) }
{
    if are_sorted(types, &entries) {
        Ok(entries)
    } else {
        copied_by_class(alloc, types, &entries)
    }
}

/// Copies of the entries, sorted by class.
fn copied_by_class(
    alloc: Global,
    types: &[TypeDef],
    entries: &Table<WorldKey, WorldItem>,
) -> Result<Table<WorldKey, WorldItem>, AllocError>
    ensures { IfOk result (λ sorted. sorted ≡ by_class types.now entries.now) }
{
    entries.keys_differ();
    let mut sorted = Table::new(alloc);
    for class in 0..CLASSES {
        add_class(types, &mut sorted, entries, class)?;
    }
    Ok(sorted)
}
