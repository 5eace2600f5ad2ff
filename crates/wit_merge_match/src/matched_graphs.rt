//! Two graphs, and what stands beside a thing of the other one.
ghost use Rattle.std.specs.Prelude.{◌≡◌, option_and_then, slice_get};
ghost use Rattle.std.specs.Option.{option_copied};
ghost use Rattle.wit_merge_spec.specs.Matches.{counterpart_interface, counterpart_item, counterpart_type, matched_interface, matched_world};
ghost use Rattle.wit_merge_match.specs.steps.Differing.{AreKnown, merging_of};

use crate::matches::Matches;
use wit_data::{Interface, InterfaceId, PackageId, Table, TypeDef, World, WorldItem, WorldKey};
use wit_graph_data::{Graph, Package};

/// Two graphs, and what is matched of them.
#[derive(Clone, Copy)]
pub(crate) struct MatchedGraphs<'a> {
    pub(crate) graph: &'a Graph,
    pub(crate) other: &'a Graph,
    pub(crate) matches: &'a Matches,
}

impl<'a> MatchedGraphs<'a> {
    /// The type of the graph with which one of the other is matched.
    pub(crate) fn matched_type(&self, index: usize) -> Option<&'a TypeDef>
        requires { AreKnown self.now }
        ensures { option_copied result
            ≡ option_and_then (slice_get self.now.graph.now.types)
            (counterpart_type (merging_of self.now) index) }
    {
        match self.matches.types.get(index) {
            Some(Some(id)) => self.graph.types.get(id.index()),
            _ => None,
        }
    }

    /// The interface with which one of the other graph is matched.
    pub(crate) fn interface_match(&self, index: usize) -> Option<InterfaceId>
        requires { AreKnown self.now }
        ensures { result ≡ counterpart_interface (merging_of self.now) index }
    {
        match self.matches.interfaces.get(index) {
            Some(found) => *found,
            None => None,
        }
    }

    /// The same, as it is in the graph.
    pub(crate) fn matched_interface(&self, index: usize) -> Option<&'a Interface>
        requires { AreKnown self.now }
        ensures { option_copied result ≡ matched_interface (merging_of self.now) index }
    {
        let id = self.interface_match(index)?;
        self.graph.interfaces.get(id.index())
    }

    /// The world of the graph with which one of the other is matched.
    pub(crate) fn matched_world(&self, index: usize) -> Option<&'a World>
        requires { AreKnown self.now }
        ensures { option_copied result ≡ matched_world (merging_of self.now) index }
    {
        match self.matches.worlds.get(index) {
            Some(Some(id)) => self.graph.worlds.get(id.index()),
            _ => None,
        }
    }

    /// What stands among entries of the graph under the key of one of the other: under the same label, or under the
    /// interface that is matched.
    pub(crate) fn matched_item<'b>(
        &self,
        key: &WorldKey,
        entries: &'b Table<WorldKey, WorldItem>,
    ) -> Option<&'b WorldItem>
        requires { AreKnown self.now }
        ensures { option_copied result
            ≡ counterpart_item (merging_of self.now) entries.now key.now }
    {
        match key {
            WorldKey::Name(_) => entries.get(key),
            WorldKey::Interface(id) => {
                let there = self.interface_match(id.index())?;
                let key = WorldKey::Interface(there);
                entries.get(&key)
            }
        }
    }
}

/// The package of the other graph of which a thing is.
pub(crate) fn package_at(graph: &Graph, id: Option<PackageId>) -> Option<&Package>
    ensures { option_copied result ≡ option_and_then (slice_get graph.now.packages) id }
{
    graph.packages.get(id?.index())
}
