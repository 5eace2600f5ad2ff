//! What each interface of a graph reaches along uses.
ghost use Rattle.std.specs.Prelude.{◌≡◌, ◌↔◌, ◌<◌, IfErr, IfOk, IsTrue, length};
ghost use Rattle.std.specs.List.{sum_by};
ghost use Rattle.wit_digraph.specs.Relation.{IsAcyclic, Reaches};
ghost use Rattle.wit_elaboration.specs.steps.Closures.{IsClosureOf};
ghost use Rattle.wit_elaboration.specs.Elaboration.{graph_uses};
ghost use Rattle.wit_graph_data.specs.declared.error_kind.ResolveErrorKind.TheVariants.{OutOfMemory};

use crate::closure_rows::ClosureRows;
use std::alloc::Global;
use std::marker::Model;
use wit_data::uses_of;
use wit_graph_data::{Graph, ResolveResult};
use wit_values::Items;

/// For each interface of a graph, what it reaches along uses. Its memory is linear in interfaces and uses.
#[derive(Drop)]
pub struct Closure {
    uses: Items<Items<usize>>,
    rows: ClosureRows,
}

impl Model for Closure {
    ghost use Rattle.std.specs.Prelude.{ℕ, List};
    ghost use Rattle.wit_elaboration.specs.steps.Closures.{IsClosureOf};

    ghost Value = { List (List ℕ) };

    ghost view = { λ a. a.uses };

    ghost invariant = { λ a. IsClosureOf a.uses a.rows };
}

impl Closure {
    /// What each interface of a graph reaches along uses, which have no cycle. It goes over the types of all interfaces
    /// once, and joins a row of bits for each use. It is refused for want of memory (28) alone.
    pub fn of(alloc: Global, graph: &Graph) -> ResolveResult<Closure>
        requires { IsAcyclic (graph_uses graph.now) }
        ensures ok { IfOk result (λ closure. closure ≡ graph_uses graph.now) }
        ensures memory { IfErr result (λ e. e ≡ OutOfMemory) }
    {
        let uses = uses_of(alloc, graph.types.as_slice(), graph.interfaces.as_slice())?;
        let rows = ClosureRows::of(alloc, uses.as_slice())?;
        Ok(Closure { uses, rows })
    }

    /// The adjacency lists of the interfaces and their rows.
    pub(crate) fn into_parts(self) -> (Items<Items<usize>>, ClosureRows)
        ensures { (result.0 ≡ self) × IsClosureOf result.0 result.1 }
    {
        (self.uses, self.rows)
    }

    /// Of how many interfaces it tells.
    pub fn interfaces(&self) -> usize
        ensures { result ≡ length self.now }
    {
        self.uses.len()
    }

    /// How many rows were joined to make it: one for each direct use of each interface, repeats counted.
    pub fn joins(&self) -> u128
        ensures { result ≡ sum_by length self.now }
    {
        self.rows.joins()
    }

    /// Whether a path along uses leads from one interface to another, both by the index of their ids. An interface
    /// reaches itself. It takes no memory.
    ///
    /// A row without the column of `to` tells that none does. One that has it tells that one does, up to 1,024
    /// interfaces; of more, one pass over the uses decides, whose marks are kept in the closure.
    pub fn reaches(&mut self, from: usize, to: usize) -> bool
        requires from { from < length self.old }
        requires to { to < length self.old }
        ensures exact { IsTrue result ↔ Reaches self.old from to }
        ensures same { self.new ≡ self.old }
    {
        self.rows.reaches(self.uses.as_slice(), from, to)
    }
}
