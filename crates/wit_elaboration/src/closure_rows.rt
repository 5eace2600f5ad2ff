//! For each node of a relation a row of bits that tells what it reaches.
//!
//! A row has a bit for each of 1,024 columns; node i is in column i mod 1,024. So the rows take memory and time in
//! proportion to nodes and uses. A bit that is off tells that nothing of its column is reached, one that is on that
//! something of it is: the node itself where there are at most 1,024 nodes.
ghost use Rattle.std.specs.Prelude.{◌≡◌, ℕ, ◌+◌, ◌^◌, ◌<◌, ◌≤◌, ◌↔◌, All, Contains, IfOk, OnOk, IsTrue, length, slice_index, nat_eq};
ghost use Rattle.std.specs.List.{IsDistinct, sum_by};
ghost use Rattle.wit_digraph.specs.Relation.{IsAcyclic, Reaches, direct};
ghost use Rattle.wit_elaboration.specs.steps.Closures.{AreRowsOf, AreRowsOfAll, HasColumnsOf, HaveCommonBit, IsOrder, IsRowOf, MayNeed, column};
ghost use Rattle.wit_elaboration.specs.steps.Elaborating.{IsExportedList};
ghost use Rattle.wit_elaboration.specs.Imported.{HasTransitiveConflict};
ghost use Rattle.wit_elaboration.specs.steps.Parts.{exported_interfaces};

use crate::passes::mark_leading;
use crate::role::item_interface;
use crate::rows::{meets, or_into};
use std::alloc::{AllocError, Global};
use wit_data::{WorldItem, WorldKey};
use wit_digraph::{Listing, direct_uses, has_bit, post_order_of_roots, set_bit};
use wit_values::{Items, Table};

/// How many columns a row has.
const COLUMNS: usize = 1024;

/// How many words of 64 bits a row has.
const WORDS: usize = COLUMNS / 64;

/// Rows of what is reached, for the nodes of a relation.
#[derive(Drop)]
pub struct ClosureRows {
    /// All nodes, each after what it uses.
    pub(crate) order: Items<usize>,
    /// The row of each node.
    pub(crate) rows: Items<Items<u64>>,
    /// A bit for each node, for one pass after another.
    pub(crate) marks: Vec<u64>,
    /// How many rows were joined.
    pub(crate) joins: u128,
}

/// The column of a node.
fn column_of(node: usize) -> usize
    ensures column { result ≡ column node }
    ensures below { result < 1024 }
{
    node % COLUMNS
}

/// The row of a node that is there.
fn row_at(rows: &[Items<u64>], node: usize) -> &[u64]
    requires { node < length rows.now }
    ensures { result.now ≡ direct rows.now node }
{
    rows[node].as_slice()
}

/// The row of a node: its own column, joined with the row of each direct use.
fn row_of(
    alloc: Global,
    uses: &[Items<usize>],
    rows: &[Items<u64>],
    node: usize,
    joins: &mut u128,
) -> Result<Items<u64>, AllocError>
    requires acyclic { IsAcyclic uses.now }
    requires inside { node < length uses.now }
    requires long { length rows.now ≡ length uses.now }
    requires told { All (λ j. IsRowOf uses.now (direct rows.now j) j) (direct uses.now node) }
    requires room { joins.old + 2 ^ 64 ≤ 2 ^ 128 }
    ensures row { IfOk result (λ row. IsRowOf uses.now row node) }
    ensures joins { OnOk result (joins.new ≡ joins.old + length (direct uses.now node)) }
    ensures few { joins.new ≤ joins.old + 2 ^ 64 }
{
    let mut row = vec![in alloc; 0u64; WORDS]?;
    set_bit(&mut row, column_of(node));
    for used in direct_uses(uses, node) {
        or_into(&mut row, row_at(rows, *used));
        *joins += 1;
    }
    Ok(Items::from_vec(row))
}

/// All nodes, in the order of their numbers.
fn all_nodes(alloc: Global, nodes: usize) -> Result<Items<usize>, AllocError>
    ensures long { IfOk result (λ all. length all ≡ nodes) }
    ensures each { IfOk result (λ all. (k : ℕ) → k < nodes → slice_index all k ≡ k) }
{
    let mut all = Items::new(alloc);
    for node in 0..nodes {
        all.push(node)?;
    }
    Ok(all)
}

/// An empty row for each of so many nodes.
fn empty_rows(alloc: Global, nodes: usize) -> Result<Items<Items<u64>>, AllocError>
    ensures { IfOk result (λ rows. length rows ≡ nodes) }
{
    let mut rows = Items::new(alloc);
    for _ in 0..nodes {
        rows.push(Items::new(alloc))?;
    }
    Ok(rows)
}

/// Makes the rows of all nodes, in an order in which each stands after what it uses, and tells how many it joined.
fn add_rows(
    alloc: Global,
    uses: &[Items<usize>],
    order: &[usize],
    rows: &mut Items<Items<u64>>,
) -> Result<u128, AllocError>
    requires acyclic { IsAcyclic uses.now }
    requires order { IsOrder uses.now order.now }
    requires once { IsDistinct nat_eq order.now }
    requires long { length rows.old ≡ length uses.now }
    ensures rows { OnOk result (AreRowsOfAll uses.now rows.new) }
    ensures joins { IfOk result (λ joins. joins ≡ sum_by length uses.now) }
{
    let mut joins = 0u128;
    for node in order {
        let row = row_of(alloc, uses, rows.as_slice(), *node, &mut joins)?;
        rows.set(*node, row);
    }
    Ok(joins)
}

/// All nodes, each after what it uses.
fn order_of(alloc: Global, uses: &[Items<usize>]) -> Result<Items<usize>, AllocError>
    requires { IsAcyclic uses.now }
    ensures order { IfOk result (IsOrder uses.now) }
    ensures once { IfOk result (IsDistinct nat_eq) }
{
    let all = all_nodes(alloc, uses.len())?;
    let order = post_order_of_roots(alloc, uses, all.as_slice())?;
    Ok(order)
}

/// The columns of some nodes, as a row.
fn columns_of(alloc: Global, nodes: &[usize]) -> Result<Vec<u64>, AllocError>
    ensures wide { IfOk result (λ columns. length columns.items ≡ 16) }
    ensures columns { IfOk result (λ columns. HasColumnsOf nodes.now columns.items) }
{
    let mut columns = vec![in alloc; 0u64; WORDS]?;
    for node in nodes {
        set_bit(&mut columns, column_of(*node));
    }
    Ok(columns)
}

impl ClosureRows {
    /// The rows of a relation without cycles. It joins a row for each use. The only error is want of memory.
    pub(crate) fn of(alloc: Global, uses: &[Items<usize>]) -> Result<ClosureRows, AllocError>
        requires { IsAcyclic uses.now }
        ensures { IfOk result (AreRowsOf uses.now) }
    {
        let order = order_of(alloc, uses)?;
        let mut rows = empty_rows(alloc, uses.len())?;
        let joins = add_rows(alloc, uses, order.as_slice(), &mut rows)?;
        let marks = vec![in alloc; 0u64; uses.len() / 64 + 1]?;
        Ok(ClosureRows {
            order,
            rows,
            marks,
            joins,
        })
    }

    /// How many rows were joined.
    pub(crate) fn joins(&self) -> u128
        ensures { result ≡ self.now.joins }
    {
        self.joins
    }

    /// Whether exports may be in conflict, told by columns: where it answers false, they are not.
    pub(crate) fn may_conflict(
        &self,
        alloc: Global,
        uses: &[Items<usize>],
        exports: &Table<WorldKey, WorldItem>,
        exported: &Listing,
    ) -> Result<bool, AllocError>
        requires rows { AreRowsOf uses.now self.now }
        requires acyclic { IsAcyclic uses.now }
        requires interfaces { All (λ i. i < length uses.now) (exported_interfaces exports.now) }
        requires nodes { exported.now.nodes ≡ length uses.now }
        requires tells { IsExportedList exported.now.order exports.now }
        ensures { IfOk result (λ may. HasTransitiveConflict uses.now exports.now → IsTrue may) }
    {
        let columns = columns_of(alloc, exported.order())?;
        for (_, item) in exports.iter() {
            if let Some(id) = item_interface(item) {
                if self.may_need(uses, id.index(), exported, &columns) {
                    return Ok(true);
                }
            }
        }
        Ok(false)
    }

    /// Whether an interface uses one that isn't exported and whose row has one of these columns.
    fn may_need(
        &self,
        uses: &[Items<usize>],
        node: usize,
        exported: &Listing,
        columns: &[u64],
    ) -> bool
        requires rows { AreRowsOf uses.now self.now }
        requires acyclic { IsAcyclic uses.now }
        requires node { node < length uses.now }
        requires nodes { exported.now.nodes ≡ length uses.now }
        requires wide { length columns.now ≡ 16 }
        ensures { IsTrue result
            ↔ MayNeed uses.now self.now.rows exported.now.order columns.now node }
    {
        for used in direct_uses(uses, node) {
            if self.leads_outside(uses, *used, exported, columns) {
                return true;
            }
        }
        false
    }

    /// Whether an interface isn't exported and its row has one of these columns. The contract alone names `uses`.
    fn leads_outside(
        &self,
        uses: &[Items<usize>],
        node: usize,
        exported: &Listing,
        columns: &[u64],
    ) -> bool
        requires rows { AreRowsOf uses.now self.now }
        requires node { node < length uses.now }
        requires nodes { exported.now.nodes ≡ length uses.now }
        requires wide { length columns.now ≡ 16 }
        ensures { IsTrue result
            ↔ ((Contains exported.now.order node → ⊥)
            × HaveCommonBit (direct self.now.rows node) columns.now) }
    {
        !exported.has(node) && meets(row_at(self.rows.as_slice(), node), columns)
    }

    /// Whether a path leads from one node to another. It takes no memory. Where nodes share columns and the row of the one
    /// has the column of the other, it takes a step for each node and use.
    pub(crate) fn reaches(&mut self, uses: &[Items<usize>], from: usize, to: usize) -> bool
        requires closure { AreRowsOf uses.now self.old }
        requires acyclic { IsAcyclic uses.now }
        requires from { from < length uses.now }
        requires to { to < length uses.now }
        ensures exact { IsTrue result ↔ Reaches uses.now from to }
        ensures closure { AreRowsOf uses.now self.new }
    {
        if !has_bit(row_at(self.rows.as_slice(), from), column_of(to)) {
            return false;
        }
        if uses.len() <= COLUMNS {
            return true;
        }
        mark_leading(uses, self.order.as_slice(), to, &mut self.marks);
        has_bit(&self.marks, from)
    }
}
