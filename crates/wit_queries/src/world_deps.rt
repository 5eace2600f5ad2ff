//! The interfaces that a world names.
ghost use Rattle.std.specs.Prelude.{◌≡◌, slice_get};
ghost use Rattle.std.specs.Iterator.{YieldsFirst, item_count};
ghost use Rattle.std.specs.Option.{option_map};
ghost use Rattle.wit_graph_data.specs.Queries.{world_interfaces};

use crate::next::next_named;
use std::marker::Model;
use wit_data::{InterfaceId, TypeDef, WorldId, WorldItem, WorldKey};
use wit_graph_data::Graph;
use wit_values::TableIter;

/// The interfaces that the entries of a world name, those of its imports first, with repeats.
#[derive(Drop)]
pub(crate) struct WorldInterfaces<'a> {
    types: &'a [TypeDef],
    imports: TableIter<'a, WorldKey, WorldItem>,
    exports: TableIter<'a, WorldKey, WorldItem>,
}

impl<'a> Model for WorldInterfaces<'a> {
    ghost use Rattle.std.specs.Prelude.{List, ℕ, ◌++◌};
    ghost use Rattle.wit_graph_data.specs.Queries.{entry_interfaces};

    ghost Value = { List ℕ };

    ghost view = { λ a. entry_interfaces a.types.now a.imports
        ++ entry_interfaces a.types.now a.exports };
}

impl<'a> WorldInterfaces<'a> {
    /// Those of the world of an id, where there is one.
    pub(crate) fn of(graph: &'a Graph, id: WorldId) -> Option<WorldInterfaces<'a>>
        ensures { result
            ≡ option_map (world_interfaces graph.now.types) (slice_get graph.now.worlds id) }
    {
        let world = graph.worlds.get(id.index())?;
        Some(WorldInterfaces {
            types: graph.types.as_slice(),
            imports: world.imports.iter(),
            exports: world.exports.iter(),
        })
    }
}

impl<'a> Iterator for WorldInterfaces<'a> {
    type Item = InterfaceId;

    ghost next_gives = { YieldsFirst (λ named. named) };

    ghost remaining = { item_count (λ named. named) };

    fn next(&mut self) -> Option<InterfaceId> {
        match next_named(self.types, &mut self.imports) {
            Some(interface) => Some(interface),
            None => next_named(self.types, &mut self.exports),
        }
    }
}
