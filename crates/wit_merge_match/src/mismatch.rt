//! What differs of what is matched of two graphs, which have to agree to become one.
ghost use Rattle.std.specs.Prelude.{IfNone, IfOk};
ghost use Rattle.wit_elaboration.specs.Valid.{IsValid};
ghost use Rattle.wit_merge_spec.specs.Cause.{GraphsDiffer, HasNoMismatch};
ghost use Rattle.wit_merge_match.specs.steps.Matched.{AreMatches, merge_of_graphs};
ghost use Rattle.wit_merge_match.specs.steps.Differing.{AreKnown, InterfaceDiffersAt, WorldDiffersAt, merging_of};
ghost use Rattle.wit_merge_match.specs.steps.Told.{Tells, TellsNone};

use crate::matched_graphs::{MatchedGraphs, package_at};
use crate::matches::Matches;
use crate::messages::in_part;
use std::alloc::{AllocError, Global};
use wit_graph_data::Graph;
use wit_transform::interface_mismatch;

/// What differs of the other graph and what it is matched with in the graph, told with where it is: an interface of a
/// name that disagrees in a function, a world whose entries differ, or types that differ in structure. Of several any
/// may be told, but of types the first in order alone. None where nothing differs.
///
/// Both graphs are valid, and the matches are theirs. The only error is want of memory.
///
/// Source: `build_interface`, `build_function`, `build_world` and `match_world_item` of wit-parser 0.263.0.
pub fn find_mismatch(
    alloc: Global,
    graph: &Graph,
    other: &Graph,
    matches: &Matches,
) -> Result<Option<String>, AllocError>
    requires graph { IsValid graph.now }
    requires other { IsValid other.now }
    requires matches { AreMatches graph.now other.now matches.now }
    ensures some { IfOk result (Tells (GraphsDiffer (merge_of_graphs graph.now other.now))) }
    ensures none { IfOk result
        (λ found. IfNone found (HasNoMismatch (merge_of_graphs graph.now other.now))) }
{
    let comparing = MatchedGraphs {
        graph,
        other,
        matches,
    };
    for index in 0..other.interfaces.len() {
        if let Some(message) = comparing.named_mismatch(alloc, index)? {
            return Ok(Some(message));
        }
    }
    for index in 0..other.worlds.len() {
        if let Some(message) = comparing.world_mismatch(alloc, index)? {
            return Ok(Some(message));
        }
    }
    comparing.structures_mismatch(alloc)
}

impl<'a> MatchedGraphs<'a> {
    /// What differs in an interface, if it has a name.
    fn named_mismatch(&self, alloc: Global, index: usize) -> Result<Option<String>, AllocError>
        requires { AreKnown self.now }
        ensures some { IfOk result (Tells (InterfaceDiffersAt (merging_of self.now) index)) }
        ensures none { IfOk result (TellsNone (InterfaceDiffersAt (merging_of self.now) index)) }
    {
        let Some(from) = self.other.interfaces.get(index) else {
            return Ok(None);
        };
        let Some(into) = self.matched_interface(index) else {
            return Ok(None);
        };
        let Some(home) = package_at(self.other, from.package) else {
            return Ok(None);
        };
        let Some(name) = &from.name else {
            return Ok(None);
        };
        match interface_mismatch(alloc, from, into)? {
            Some(text) => {
                Ok(Some(in_part(alloc, &home.name, "interface", name.as_str(), &text)?))
            }
            None => Ok(None),
        }
    }

    /// What differs in a world.
    fn world_mismatch(&self, alloc: Global, index: usize) -> Result<Option<String>, AllocError>
        requires { AreKnown self.now }
        ensures some { IfOk result (Tells (WorldDiffersAt (merging_of self.now) index)) }
        ensures none { IfOk result (TellsNone (WorldDiffersAt (merging_of self.now) index)) }
    {
        let Some(from) = self.other.worlds.get(index) else {
            return Ok(None);
        };
        let Some(into) = self.matched_world(index) else {
            return Ok(None);
        };
        let Some(home) = package_at(self.other, from.package) else {
            return Ok(None);
        };
        match self.sides_mismatch(alloc, from, into)? {
            Some(text) => {
                Ok(Some(in_part(alloc, &home.name, "world", from.name.as_str(), &text)?))
            }
            None => Ok(None),
        }
    }
}
