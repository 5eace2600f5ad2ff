//! Marks, as a row of bits, of what reaches a target: one pass over an order, a test for each use.
ghost use Rattle.std.specs.Prelude.{◌≡◌, ℕ, ◌*◌, ◌<◌, ◌≤◌, ◌↔◌, All, IsTrue, length, []};
ghost use Rattle.wit_digraph.specs.Relation.{IsAcyclic};
ghost use Rattle.wit_digraph.specs.steps.Rows.{HasBit};
ghost use Rattle.wit_digraph.specs.steps.PostOrder.{UsesFirst};
ghost use Rattle.wit_elaboration.specs.steps.Closures.{HasUse, IsMarkRow};

use crate::rows::clear;
use wit_digraph::{direct_uses, has_bit, set_bit};
use wit_values::Items;

/// Whether one of a node's uses has its bit in a row.
fn has_use(uses: &[Items<usize>], row: &[u64], node: usize) -> bool
    requires acyclic { IsAcyclic uses.now }
    requires node { node < length uses.now }
    requires wide { length uses.now ≤ 64 * length row.now }
    ensures { IsTrue result ↔ HasUse uses.now (HasBit row.now) node }
{
    for used in direct_uses(uses, node) {
        if has_bit(row, *used) {
            return true;
        }
    }
    false
}

/// Marks the nodes of an order that reach one node. Each stands after its uses.
pub(crate) fn mark_leading(uses: &[Items<usize>], order: &[usize], to: usize, marks: &mut [u64])
    requires acyclic { IsAcyclic uses.now }
    requires uses_first { UsesFirst uses.now [] order.now }
    requires in_range { All (λ i. i < length uses.now) order.now }
    requires marks { length uses.now ≤ 64 * length marks.old }
    ensures marked { IsMarkRow uses.now order.now (λ t. t ≡ to) marks.new }
{
    clear(marks);
    for node in order {
        if *node == to || has_use(uses, marks, *node) {
            set_bit(marks, *node);
        }
    }
}
