//! Whether the exports of a world are in conflict, and which of them is refused for it.
//!
//! Each interface that the exports need is walked once. In the order of the walk, in which uses
//! come first, it is marked whether it reaches an exported interface, and then whether it reaches
//! one outside the exports that does. Where there are rows of a closure, they are asked first: they
//! tell of most worlds without a conflict that there is none.
ghost use Rattle.std.specs.Prelude.{◌≡◌, ◌++◌, ◌∷◌, ◌<◌, ◌↔◌, ◌⊎◌, [], ℕ, OnOk, IfOk, IfSome, IsTrue, All, Contains, length};
ghost use Rattle.std.specs.List.{flat_map};
ghost use Rattle.wit_elaboration.specs.steps.Closures.{IsClosureOf};
ghost use Rattle.wit_elaboration.specs.Elaborated.{dependencies_before};
ghost use Rattle.wit_elaboration.specs.steps.Elaborating.{AreMarked, AreOutside, HasMarkedUse, HaveNodes, IsExportedList, IsFirstConflict, IsPostOrder};
ghost use Rattle.wit_elaboration.specs.Entries.{Entry, item_interface};
ghost use Rattle.wit_elaboration.specs.Imported.{HasTransitiveConflict};
ghost use Rattle.wit_digraph.specs.Relation.{IsAcyclic, direct};
ghost use Rattle.wit_digraph.specs.PostOrder.{first_of_each, fresh};
ghost use Rattle.wit_digraph.specs.steps.PostOrder.{UsesFirst};
ghost use Rattle.wit_elaboration.specs.steps.Parts.{exported_keys, exported_interfaces, LeadsToConflict};

use crate::closure_rows::ClosureRows;
use crate::imports::list_needs;
use crate::marks::Marks;
use crate::role::{Role, item_interface, key_interface};
use std::alloc::{AllocError, Global};
use wit_data::{WorldItem, WorldKey};
use wit_digraph::{Listing, direct_uses};
use wit_values::{Items, Table};

/// Lists a node, unless it is listed.
fn add_node(listing: &mut Listing, node: usize) -> Result<(), AllocError>
    requires { node < listing.old.nodes }
    ensures ok { OnOk result
        (listing.new.order ≡ listing.old.order ++ fresh listing.old.order (node ∷ [])) }
    ensures nodes { listing.new.nodes ≡ listing.old.nodes }
{
    if !listing.has(node) {
        listing.push(node)?;
    }
    Ok(())
}

/// Lists the interfaces that are exported under their own keys.
fn list_exported(
    exports: &Table<WorldKey, WorldItem>,
    exported: &mut Listing,
) -> Result<(), AllocError>
    requires in_range { All (λ i. i < exported.old.nodes) (exported_keys exports.now) }
    requires none { exported.old.order ≡ [] }
    ensures ok { OnOk result (exported.new.order ≡ first_of_each (exported_keys exports.now)) }
    ensures nodes { exported.new.nodes ≡ exported.old.nodes }
{
    for (key, _) in exports.iter() {
        if let Some(id) = key_interface(key) {
            add_node(exported, id.index())?;
        }
    }
    Ok(())
}

/// Walks the uses of all exported interfaces.
fn list_exports_by(
    alloc: Global,
    uses: &[Items<usize>],
    exports: &Table<WorldKey, WorldItem>,
    walked: &mut Listing,
) -> Result<(), AllocError>
    requires acyclic { IsAcyclic uses.now }
    requires in_range { All (λ i. i < length uses.now) (exported_interfaces exports.now) }
    requires post_order { IsPostOrder uses.now walked.old }
    requires none { walked.old.order ≡ [] }
    ensures ok { OnOk result (walked.new.order
        ≡ first_of_each (flat_map (λ i. dependencies_before uses.now (Role.Instance i))
        (exported_interfaces exports.now))) }
    ensures post_order { IsPostOrder uses.now walked.new }
{
    for (_, item) in exports.iter() {
        if let Some(id) = item_interface(item) {
            list_needs(alloc, uses, walked, Role::Instance(id))?;
        }
    }
    Ok(())
}

/// Whether one of the nodes is listed.
fn has_any(listing: &Listing, nodes: &[usize]) -> bool
    requires { All (λ i. i < listing.now.nodes) nodes.now }
    ensures { IsTrue result ↔ ((i : ℕ) × Contains nodes.now i × Contains listing.now.order i) }
{
    for node in nodes {
        if listing.has(*node) {
            return true;
        }
    }
    false
}

/// Whether a node is a target, or one of its uses is marked.
fn is_reaching(uses: &[Items<usize>], targets: &Listing, marked: &Listing, node: usize) -> bool
    requires acyclic { IsAcyclic uses.now }
    requires node { node < length uses.now }
    requires targets { targets.now.nodes ≡ length uses.now }
    requires marked { marked.now.nodes ≡ length uses.now }
    ensures { IsTrue result
        ↔ (Contains targets.now.order node ⊎ HasMarkedUse uses.now marked.now.order node) }
{
    targets.has(node) || has_any(marked, direct_uses(uses, node))
}

/// Marks the nodes of an order that reach a target. Each stands after its uses.
fn mark_reaching(
    uses: &[Items<usize>],
    order: &[usize],
    targets: &Listing,
    marked: &mut Listing,
) -> Result<(), AllocError>
    requires acyclic { IsAcyclic uses.now }
    requires uses_first { UsesFirst uses.now [] order.now }
    requires in_range { All (λ i. i < length uses.now) order.now }
    requires targets { targets.now.nodes ≡ length uses.now }
    requires marked { marked.old.nodes ≡ length uses.now }
    requires none { marked.old.order ≡ [] }
    ensures ok { OnOk result (AreMarked uses.now order.now targets.now.order marked.new.order) }
    ensures nodes { marked.new.nodes ≡ marked.old.nodes }
{
    for node in order {
        if is_reaching(uses, targets, marked, *node) {
            add_node(marked, *node)?;
        }
    }
    Ok(())
}

/// Whether a node reaches an exported interface and is not exported itself.
fn is_outside(reaching: &Listing, exported: &Listing, node: usize) -> bool
    requires reaching { node < reaching.now.nodes }
    requires exported { node < exported.now.nodes }
    ensures { IsTrue result
        ↔ (Contains reaching.now.order node × (Contains exported.now.order node → ⊥)) }
{
    reaching.has(node) && !exported.has(node)
}

/// Lists those of an order that reach an exported interface and are not exported themselves.
fn list_outside(
    order: &[usize],
    reaching: &Listing,
    exported: &Listing,
    outside: &mut Listing,
) -> Result<(), AllocError>
    requires reaching { All (λ i. i < reaching.now.nodes) order.now }
    requires exported { exported.now.nodes ≡ reaching.now.nodes }
    requires outside { outside.old.nodes ≡ reaching.now.nodes }
    requires none { outside.old.order ≡ [] }
    ensures ok { OnOk result
        (AreOutside order.now reaching.now.order exported.now.order outside.new.order) }
    ensures nodes { outside.new.nodes ≡ outside.old.nodes }
{
    for node in order {
        if is_outside(reaching, exported, *node) {
            add_node(outside, *node)?;
        }
    }
    Ok(())
}

/// The index of the first export of an interface that leads to a conflict: one of its uses does, and
/// so is marked.
fn first_conflict(
    uses: &[Items<usize>],
    exports: &Table<WorldKey, WorldItem>,
    leading: &Listing,
) -> Option<usize>
    requires in_range { All (λ i. i < length uses.now) (exported_interfaces exports.now) }
    requires uses_in_range { (i : ℕ) → All (λ j. j < leading.now.nodes) (direct uses.now i) }
    requires marked { (e : Entry) → (i : ℕ) → Contains exports.now e
        → Contains (item_interface e.1) i
        → HasMarkedUse uses.now leading.now.order i ↔ LeadsToConflict uses.now exports.now i }
    ensures { IsFirstConflict uses.now exports.now result }
{
    for index in 0..exports.len() {
        let (_, item) = exports.entry_at(index);
        if let Some(id) = item_interface(item) {
            if has_any(leading, direct_uses(uses, id.index())) {
                return Some(index);
            }
        }
    }
    None
}

/// The index of the first export of an interface that is in conflict, None where there is none.
fn find_conflict(
    alloc: Global,
    uses: &[Items<usize>],
    exports: &Table<WorldKey, WorldItem>,
    marks: &mut Marks,
) -> Result<Option<usize>, AllocError>
    requires acyclic { IsAcyclic uses.now }
    requires in_range { All (λ i. i < length uses.now) (exported_interfaces exports.now) }
    requires nodes { HaveNodes marks.old (length uses.now) }
    requires exported { IsExportedList marks.old.exported.order exports.now }
    ensures found { IfOk result (IsFirstConflict uses.now exports.now) }
    ensures nodes { HaveNodes marks.new (length uses.now) }
    ensures exported { marks.new.exported ≡ marks.old.exported }
{
    marks.walked.clear();
    marks.reaching.clear();
    marks.outside.clear();
    marks.leading.clear();
    list_exports_by(alloc, uses, exports, &mut marks.walked)?;
    mark_reaching(
        uses,
        marks.walked.order(),
        &marks.exported,
        &mut marks.reaching,
    )?;
    list_outside(
        marks.walked.order(),
        &marks.reaching,
        &marks.exported,
        &mut marks.outside,
    )?;
    mark_reaching(
        uses,
        marks.walked.order(),
        &marks.outside,
        &mut marks.leading,
    )?;
    Ok(first_conflict(uses, exports, &marks.leading))
}

/// Whether exports may be in conflict: where there are rows and they answer false, they are not.
fn may_conflict(
    alloc: Global,
    uses: &[Items<usize>],
    exports: &Table<WorldKey, WorldItem>,
    exported: &Listing,
    rows: &Option<ClosureRows>,
) -> Result<bool, AllocError>
    requires acyclic { IsAcyclic uses.now }
    requires interfaces { All (λ i. i < length uses.now) (exported_interfaces exports.now) }
    requires nodes { exported.now.nodes ≡ length uses.now }
    requires tells { IsExportedList exported.now.order exports.now }
    requires rows { IfSome rows.now (λ r. IsClosureOf uses.now r) }
    ensures { IfOk result (λ may. HasTransitiveConflict uses.now exports.now → IsTrue may) }
{
    match rows {
        Some(rows) => {
            let may = rows.may_conflict(alloc, uses, exports, exported)?;
            Ok(may)
        }
        None => Ok(true),
    }
}

/// The index of the first export of an interface that is in conflict, None where there is none. It
/// lists the exported keys too. Where there are rows of a closure, they are asked first.
pub(crate) fn find_refused(
    alloc: Global,
    uses: &[Items<usize>],
    exports: &Table<WorldKey, WorldItem>,
    marks: &mut Marks,
    rows: &Option<ClosureRows>,
) -> Result<Option<usize>, AllocError>
    requires acyclic { IsAcyclic uses.now }
    requires own { (j : ℕ) → Contains (exported_keys exports.now) j
        → Contains (exported_interfaces exports.now) j }
    requires rows { IfSome rows.now (λ r. IsClosureOf uses.now r) }
    requires interfaces { All (λ i. i < length uses.now) (exported_interfaces exports.now) }
    requires keys { All (λ i. i < length uses.now) (exported_keys exports.now) }
    requires nodes { HaveNodes marks.old (length uses.now) }
    ensures found { IfOk result (IsFirstConflict uses.now exports.now) }
    ensures nodes { HaveNodes marks.new (length uses.now) }
    ensures exported { OnOk result (IsExportedList marks.new.exported.order exports.now) }
{
    marks.exported.clear();
    list_exported(exports, &mut marks.exported)?;
    let may = may_conflict(alloc, uses, exports, &marks.exported, rows)?;
    if !may {
        return Ok(None);
    }
    find_conflict(alloc, uses, exports, marks)
}
