//! Walks along uses: the post-order of a node is the post-orders of its direct uses, in order, then the node.
//!
//! A listing keeps the first of each node that walks come to. It holds a node after all that the
//! node uses, so what is listed need not be walked again.
ghost use Rattle.std.specs.Prelude.{◌≡◌, ℕ, ◌<◌, ◌≤◌, ◌+◌, ◌++◌, ◌∷◌, ◌↔◌, [], OnOk, OnErr, IfOk, IsTrue, All, Contains, length};
ghost use Rattle.std.specs.List.{flat_map};
ghost use Rattle.wit_digraph.specs.Relation.{IsAcyclic};
ghost use Rattle.wit_digraph.specs.PostOrder.{first_of_each, fresh, post_order};
ghost use Rattle.wit_digraph.specs.steps.PostOrder.{UsesFirst};

use crate::frame::Frame;
use crate::relation::direct_uses;
use crate::row::{has_bit, set_bit};
use std::alloc::{AllocError, Global};
use std::marker::Model;
use wit_values::Items;

/// Some of a number of nodes, in the order in which they were listed. Nodes count from 0. A row of
/// bits, one for each node, tells which are listed.
#[derive(Drop)]
pub struct Listing {
    nodes: usize,
    marks: Vec<u64>,
    order: Items<usize>,
}

impl Model for Listing {
    ghost use Rattle.wit_digraph.specs.steps.PostOrder.{AreMarksOf, Listed};

    ghost Value = { Listed };

    ghost view = { λ a. record { nodes = a.nodes; order = a.order } };

    ghost invariant = { λ a. AreMarksOf a.nodes a.marks.items a.order };
}

impl Listing {
    /// None of no nodes, which takes no memory.
    pub fn empty(alloc: Global) -> Listing
        ensures { result ≡ record { nodes = 0; order = [] } }
    {
        Listing {
            nodes: 0,
            marks: Vec::new(alloc),
            order: Items::new(alloc),
        }
    }

    /// None of `nodes` nodes. It takes a bit for each. The only error is want of memory.
    pub fn new(alloc: Global, nodes: usize) -> Result<Listing, AllocError>
        ensures { IfOk result (λ l. l ≡ record { nodes = nodes; order = [] }) }
    {
        let marks = vec![in alloc; 0u64; nodes / 64 + 1]?;
        Ok(Listing {
            nodes,
            marks,
            order: Items::new(alloc),
        })
    }

    /// All nodes, each after all that it uses. Each use is of a node that is there, and no path
    /// leads from a node back to it. The only error is want of memory.
    ///
    /// It takes a bit and a step for each node, and a step for each of their uses.
    pub fn of_all(alloc: Global, uses: &[Items<usize>]) -> Result<Listing, AllocError>
        requires { IsAcyclic uses.now }
        ensures nodes { IfOk result (λ l. l.nodes ≡ length uses.now) }
        ensures all { IfOk result (λ l. (i : ℕ) → i < length uses.now → Contains l.order i) }
        ensures uses_first { IfOk result (λ l. UsesFirst uses.now [] l.order) }
    {
        let mut listing = Listing::new(alloc, uses.len())?;
        for root in 0..uses.len() {
            listing.list_post_order(alloc, uses, root)?;
        }
        Ok(listing)
    }

    /// The nodes that are listed, in order.
    pub fn order(&self) -> &[usize]
        ensures order { result.now ≡ self.now.order }
        ensures in_range { All (λ i. i < self.now.nodes) self.now.order }
    {
        self.order.as_slice()
    }

    /// The nodes that are listed, in order. It takes no memory.
    pub fn into_order(self) -> Items<usize>
        ensures { result ≡ self.order }
    {
        self.order
    }

    /// Whether a node, one of those that there are, is listed.
    pub fn has(&self, node: usize) -> bool
        requires { node < self.now.nodes }
        ensures { IsTrue result ↔ Contains self.now.order node }
    {
        has_bit(&self.marks, node)
    }

    /// Lists one more of the nodes that there are, which isn't listed yet. Where there is no memory
    /// the listing is as before.
    pub fn push(&mut self, node: usize) -> Result<(), AllocError>
        requires in_range { node < self.old.nodes }
        requires new { Contains self.old.order node → ⊥ }
        ensures ok { OnOk result
            (self.new ≡ record self.old { order = self.old.order ++ node ∷ [] }) }
        ensures unchanged { OnErr result (self.new ≡ self.old) }
    {
        self.order.push(node)?;
        set_bit(&mut self.marks, node);
        Ok(())
    }

    /// One node more, which isn't listed. Where there is no memory the listing is as before.
    pub fn add_node(&mut self) -> Result<(), AllocError>
        ensures ok { OnOk result (self.new ≡ record self.old { nodes = self.old.nodes + 1 }) }
        ensures unchanged { OnErr result (self.new ≡ self.old) }
    {
        let Some(nodes) = self.nodes.checked_add(1) else {
            return Err(AllocError);
        };
        if self.nodes / 64 == self.marks.len() {
            self.marks.push(0)?;
        }
        self.nodes = nodes;
        Ok(())
    }

    /// How many nodes there are, listed or not.
    pub fn nodes(&self) -> usize
        ensures { result ≡ self.now.nodes }
    {
        self.nodes
    }

    /// None of the first `nodes` nodes, of which there are at least as many now; the others are no
    /// nodes any more. It takes no memory and gives none back, at a step for each node that was
    /// listed.
    pub fn cut(&mut self, nodes: usize)
        requires { nodes ≤ self.old.nodes }
        ensures { self.new ≡ record { nodes = nodes; order = [] } }
    {
        self.clear();
        self.nodes = nodes;
    }

    /// Takes all nodes off the list, at a step for each that is listed.
    pub fn clear(&mut self)
        ensures { self.new ≡ record self.old { order = [] } }
    {
        for index in 0..self.order.len() {
            let node = *self.order.at(index);
            self.marks[node / 64] = 0;
        }
        self.order.truncate(0);
    }

    /// Lists the members of the post-order of `root` that are not listed yet, in the post-order. The
    /// listing is of as many nodes as the relation has, `root` and each use are among them, no path
    /// leads from a node back to it, and each node that is listed already stands after all that it
    /// uses.
    ///
    /// It takes a step for each node that it lists and for each of their uses. For uses are
    /// acyclic, so a node on the stack is not met again before it is listed, and a listed one is
    /// not entered. The only error is want of memory. Then some of them may be listed, each after
    /// all that it uses.
    pub fn list_post_order(
        &mut self,
        alloc: Global,
        uses: &[Items<usize>],
        root: usize,
    ) -> Result<(), AllocError>
        requires acyclic { IsAcyclic uses.now }
        requires root { root < length uses.now }
        requires nodes { self.old.nodes ≡ length uses.now }
        requires uses_first { UsesFirst uses.now [] self.old.order }
        ensures ok { OnOk result (self.new
            ≡ record self.old
            { order = self.old.order ++ fresh self.old.order (post_order uses.now root) }) }
        ensures nodes { self.new.nodes ≡ self.old.nodes }
        ensures uses_first { UsesFirst uses.now [] self.new.order }
    {
        if self.has(root) {
            return Ok(());
        }
        let mut stack = vec![in alloc;
            Frame {
                node: root,
                next: 0
            },
        ]?;
        while let Some(frame) = stack.pop() {
            let used_nodes = direct_uses(uses, frame.node);
            if frame.next < used_nodes.len() {
                let used = used_nodes[frame.next];
                stack.push(Frame {
                    node: frame.node,
                    next: frame.next + 1,
                })?;
                if !self.has(used) {
                    stack.push(Frame {
                        node: used,
                        next: 0,
                    })?;
                }
            } else if !self.has(frame.node) {
                self.push(frame.node)?;
            }
        }
        Ok(())
    }
}

/// The nodes of the post-orders of the roots, each once, where it comes first. Each use is of a node that
/// is there, as each root is, and no path leads from a node back to it. The only error is want of
/// memory.
///
/// It takes a bit for each node, and a step for each root, for each node that a root reaches and
/// for each of their uses.
pub fn post_order_of_roots(
    alloc: Global,
    uses: &[Items<usize>],
    roots: &[usize],
) -> Result<Items<usize>, AllocError>
    requires acyclic { IsAcyclic uses.now }
    requires roots { All (λ i. i < length uses.now) roots.now }
    ensures { IfOk result
        (λ order. order ≡ first_of_each (flat_map (post_order uses.now) roots.now)) }
{
    let mut listing = Listing::new(alloc, uses.len())?;
    for root in roots {
        listing.list_post_order(alloc, uses, *root)?;
    }
    Ok(listing.into_order())
}
