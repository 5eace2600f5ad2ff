//! A world of a graph that another one includes.
ghost use Rattle.std.specs.Prelude.{◌≡◌};
ghost use Rattle.wit_link_spec.specs.Include.{owner_belongs_to};
ghost use Rattle.wit_link_include.specs.steps.Included.{IsOrigin, is_open_in};

use wit_data::{InterfaceId, Table, TypeDef, TypeOwner, World, WorldId};
use wit_graph_data::Graph;

/// A world of a graph, and where the interfaces without a name that stand in it go.
#[derive(Clone, Copy)]
pub(crate) struct Origin<'a> {
    pub graph: &'a Graph,
    pub id: WorldId,
    pub world: &'a World,
    pub belonging_interfaces: &'a Table<InterfaceId, InterfaceId>,
}

impl<'a> Origin<'a> {
    /// Whether what has this owner goes with the world.
    pub(crate) fn owns(&self, owner: TypeOwner) -> bool
        requires { IsOrigin self.now }
        ensures { result
            ≡ owner_belongs_to self.now.graph.now self.now.id self.now.world.now owner }
    {
        match owner {
            TypeOwner::World(world) => world == self.id,
            TypeOwner::Interface(id) => self.belonging_interfaces.contains_key(&id),
            TypeOwner::None => false,
        }
    }

    /// Whether a type may refer to what goes with the world: it goes with it itself, or has no name.
    pub(crate) fn is_open(&self, def: &TypeDef) -> bool
        requires { IsOrigin self.now }
        ensures { result ≡ is_open_in self.now def.now }
    {
        self.owns(def.owner) || def.name.is_none()
    }
}
