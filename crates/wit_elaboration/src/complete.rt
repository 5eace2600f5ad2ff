//! Worlds that are their own elaboration, told by one look at each entry and at its direct uses.
ghost use Rattle.std.specs.Prelude.{◌≡◌, ◌↔◌, ◌<◌, ◌++◌, ℕ, [], All, Contains, IfOk, IsTrue, OnOk, length};
ghost use Rattle.std.specs.List.{flat_map};
ghost use Rattle.wit_elaboration.specs.Elaborated.{import_with_needs, without_span};
ghost use Rattle.wit_elaboration.specs.laws.ElaborationLaws.{DependenciesFirst, stands_on};
ghost use Rattle.wit_elaboration.specs.Entries.{by_class, fresh_entries, item_interface, key_interface, role_of};
ghost use Rattle.wit_elaboration.specs.Sound.{AreSound, IsRoleInRange};
ghost use Rattle.wit_data.specs.Each.{Each};
ghost use Rattle.wit_digraph.specs.Relation.{IsAcyclic};

use crate::imports::are_sorted;
use crate::role::{Role, item_interface};
use std::alloc::AllocError;
use wit_data::{TypeDef, WorldItem, WorldKey};
use wit_digraph::{Listing, direct_uses};
use wit_values::{Items, Table};

/// Whether no interface is exported. What is exported then needs nothing.
pub(crate) fn exports_no_interface(exports: &Table<WorldKey, WorldItem>) -> bool
    ensures { IsTrue result ↔ Each (λ e. item_interface e.1 ≡ []) exports.now }
{
    for (_, item) in exports.iter() {
        if item_interface(item).is_some() {
            return false;
        }
    }
    true
}

/// Whether imports are sorted by class, none has a span that is an interface, and each stands after what it uses.
pub(crate) fn are_complete(
    types: &[TypeDef],
    uses: &[Items<usize>],
    imported: &mut Listing,
    imports: &Table<WorldKey, WorldItem>,
) -> Result<bool, AllocError>
    requires acyclic { IsAcyclic uses.now }
    requires listed { AreSound types.now (length uses.now) imports.now }
    requires nodes { imported.old.nodes ≡ length uses.now }
    requires none { imported.old.order ≡ [] }
    ensures sorted { IfOk result
        (λ complete. IsTrue complete → by_class types.now imports.now ≡ imports.now) }
    ensures complete { IfOk result (λ complete.
        IsTrue complete
        → fresh_entries []
        (flat_map (import_with_needs types.now uses.now) (by_class types.now imports.now))
        ≡ imports.now) }
    ensures nodes { imported.new.nodes ≡ imported.old.nodes }
{
    imports.keys_differ();
    if !are_sorted(types, imports) {
        return Ok(false);
    }
    stand_in_order(types, uses, imported, imports)
}

/// Whether each import stands after what it uses, and none that is an interface has a span.
fn stand_in_order(
    types: &[TypeDef],
    uses: &[Items<usize>],
    imported: &mut Listing,
    imports: &Table<WorldKey, WorldItem>,
) -> Result<bool, AllocError>
    requires acyclic { IsAcyclic uses.now }
    requires listed { AreSound types.now (length uses.now) imports.now }
    requires nodes { imported.old.nodes ≡ length uses.now }
    requires none { imported.old.order ≡ [] }
    ensures order { IfOk result
        (λ complete. IsTrue complete → DependenciesFirst types.now uses.now [] imports.now) }
    ensures settled { IfOk result
        (λ complete. IsTrue complete → Each (λ e. without_span e.1 ≡ e.1) imports.now) }
    ensures nodes { imported.new.nodes ≡ imported.old.nodes }
{
    for (key, item) in imports.iter() {
        if !is_in_place(types, uses, imported, item) {
            return Ok(false);
        }
        list_key(imported, key)?;
    }
    Ok(true)
}

/// Lists the interface that a key names.
fn list_key(imported: &mut Listing, key: &WorldKey) -> Result<(), AllocError>
    requires in_range { All (λ i. i < imported.old.nodes) (key_interface key.now) }
    requires new { (i : ℕ) → Contains (key_interface key.now) i → Contains imported.old.order i
        → ⊥ }
    ensures ok { OnOk result (imported.new
        ≡ record imported.old { order = imported.old.order ++ key_interface key.now }) }
    ensures nodes { imported.new.nodes ≡ imported.old.nodes }
{
    match key {
        WorldKey::Interface(id) => imported.push(id.index()),
        WorldKey::Name(_) => Ok(()),
    }
}

/// Whether an import leaves its item as it is, and what that uses directly is imported.
fn is_in_place(
    types: &[TypeDef],
    uses: &[Items<usize>],
    imported: &Listing,
    item: &WorldItem,
) -> bool
    requires acyclic { IsAcyclic uses.now }
    requires role { IsRoleInRange (length uses.now) (role_of types.now item.now) }
    requires nodes { imported.now.nodes ≡ length uses.now }
    ensures { IsTrue result
        ↔ (without_span item.now ≡ item.now)
        × All (Contains imported.now.order) (stands_on uses.now (role_of types.now item.now)) }
{
    is_settled(item) && stands(uses, imported, Role::of(types, item))
}

/// Whether the import of an item leaves it as it is: it is no interface, or has no span.
fn is_settled(item: &WorldItem) -> bool
    ensures { IsTrue result ↔ (without_span item.now ≡ item.now) }
{
    match item {
        WorldItem::Interface { span, .. } => !span.is_known(),
        WorldItem::Function(_) | WorldItem::Type_ { .. } => true,
    }
}

/// Whether what an item uses directly is imported.
fn stands(uses: &[Items<usize>], imported: &Listing, role: Role) -> bool
    requires acyclic { IsAcyclic uses.now }
    requires role { IsRoleInRange (length uses.now) role }
    requires nodes { imported.now.nodes ≡ length uses.now }
    ensures { IsTrue result ↔ All (Contains imported.now.order) (stands_on uses.now role) }
{
    match role {
        Role::Instance(interface) => has_all(imported, direct_uses(uses, interface.index())),
        Role::TypeUse(interface) => imported.has(interface.index()),
        Role::TypeDefinition | Role::FreeFunction | Role::ResourceFunction => true,
    }
}

/// Whether all of the nodes are listed.
fn has_all(listing: &Listing, nodes: &[usize]) -> bool
    requires { All (λ i. i < listing.now.nodes) nodes.now }
    ensures { IsTrue result ↔ All (Contains listing.now.order) nodes.now }
{
    for node in nodes {
        if !listing.has(*node) {
            return false;
        }
    }
    true
}
