//! The interfaces that an interface uses, and whether one comes to use itself.
ghost use Rattle.std.specs.Prelude.{◌≡◌, ◌<◌, ◌↔◌, IfOk, IsTrue, length, slice_get};
ghost use Rattle.std.specs.Iterator.{YieldsFirst, item_count};
ghost use Rattle.std.specs.Option.{option_map};
ghost use Rattle.wit_graph_data.specs.Queries.{interface_direct_deps};
ghost use Rattle.wit_data.specs.Uses.{interface_uses, uses_of};
ghost use Rattle.wit_digraph.specs.Relation.{IsAcyclic};

use crate::next::next_used;
use std::alloc::{AllocError, Global};
use std::marker::Model;
use wit_data::{InterfaceId, TypeDef, TypeId, uses_of};
use wit_digraph::is_acyclic;
use wit_graph_data::Graph;
use wit_values::NamesIter;

/// The interfaces that an interface uses directly, in the order of its types, with repeats.
#[derive(Drop)]
pub struct InterfaceDirectDeps<'a> {
    types: &'a [TypeDef],
    ids: NamesIter<'a, TypeId>,
}

impl<'a> Model for InterfaceDirectDeps<'a> {
    ghost use Rattle.std.specs.Prelude.{List, ℕ, filter_map};
    ghost use Rattle.wit_data.specs.Uses.{type_interface_dep};

    ghost Value = { List ℕ };

    ghost view = { λ a. filter_map (λ (e : List ℕ × ℕ). type_interface_dep a.types.now e.1) a.ids };
}

impl<'a> InterfaceDirectDeps<'a> {
    /// Those of the interface of an id, where there is one.
    pub(crate) fn of(graph: &'a Graph, id: InterfaceId) -> Option<InterfaceDirectDeps<'a>>
        ensures { result
            ≡ option_map (interface_uses graph.now.types) (slice_get graph.now.interfaces id) }
    {
        let interface = graph.interfaces.get(id.index())?;
        Some(InterfaceDirectDeps {
            types: graph.types.as_slice(),
            ids: interface.types.iter(),
        })
    }
}

impl<'a> Iterator for InterfaceDirectDeps<'a> {
    type Item = InterfaceId;

    ghost next_gives = { YieldsFirst (λ deps. deps) };

    ghost remaining = { item_count (λ deps. deps) };

    fn next(&mut self) -> Option<InterfaceId> {
        next_used(self.types, &mut self.ids)
    }
}

/// The interfaces that an interface uses directly, in the order of its types, with repeats. The
/// interface is there. It takes no memory.
///
/// Source: `interface_direct_deps` of wit-parser 0.263.0.
pub fn interface_direct_deps(graph: &Graph, id: InterfaceId) -> InterfaceDirectDeps<'_>
    requires { id < length graph.now.interfaces }
    ensures { result ≡ interface_direct_deps graph.now.types graph.now.interfaces id }
{
    InterfaceDirectDeps {
        types: graph.types.as_slice(),
        ids: graph.interfaces.at(id.index()).types.iter(),
    }
}

/// Whether uses of interfaces have no cycle and each used interface is there, as a closure over uses and the
/// elaboration of all worlds ask. Any graph may be asked, also one without worlds. The only error is want of memory.
pub fn are_uses_acyclic(alloc: Global, graph: &Graph) -> Result<bool, AllocError>
    ensures { IfOk result
        (λ acyclic. IsTrue acyclic ↔ IsAcyclic (uses_of graph.now.types graph.now.interfaces)) }
{
    let uses = uses_of(alloc, graph.types.as_slice(), graph.interfaces.as_slice())?;
    is_acyclic(alloc, uses.as_slice())
}
