//! Where the types of another graph go at value positions, and the `own`s that come for that.
ghost use Rattle.std.specs.Prelude.{◌≡◌, ℕ, IfOk};
ghost use Rattle.wit_elaboration.specs.Valid.{IsValid};
ghost use Rattle.wit_link_resources.specs.steps.Leading.{AreRight};
ghost use Rattle.wit_merge_spec.specs.Merged.{value_remap};
ghost use Rattle.wit_remap.specs.Grown.{Begins};
ghost use Rattle.wit_merge_match.specs.Differing.{merge_of_graphs_by};
ghost use Rattle.wit_merge_match.specs.steps.Matched.{AreMatches, merge_of_graphs, merge_ids_of};
ghost use Rattle.wit_merge.specs.steps.MergeSteps.{value_ids};
ghost use Rattle.wit_remap_spec.specs.steps.Parts.{owns};

use crate::functions::moved_functions;
use std::alloc::{AllocError, Global};
use wit_data::{Table, TypeId};
use wit_graph_data::Graph;
use wit_link_resources::{Incoming, remapped_values};
use wit_link_spec::Values;
use wit_merge_match::{Matches, MergeIds};

/// What types are remapped to at value positions, and the `own`s that come for that, by how far spans may move.
///
/// It takes a step for each part of what moves, and for each type on the way along aliases from what stands at value
/// positions, up to one of the graph that was met, with whether it leads to a resource; what is met on the way comes
/// behind these.
pub(crate) fn values(
    alloc: Global,
    graph: &Graph,
    other: &Graph,
    matches: &Matches,
    merge_ids: &MergeIds,
    met: &mut Table<TypeId, bool>,
) -> Result<Values, AllocError>
    requires valid { IsValid graph.now }
    requires valid_other { IsValid other.now }
    requires matches { AreMatches graph.now other.now matches.now }
    requires merge_ids { merge_ids.now ≡ merge_ids_of (merge_of_graphs graph.now other.now) }
    requires met { AreRight graph.now.types met.old }
    ensures values { IfOk result (λ values.
        (offset : ℕ)
        → (values.new_ids ≡ value_ids (merge_of_graphs_by graph.now other.now offset))
        × (values.owns
        ≡ owns (value_remap (merge_of_graphs_by graph.now other.now offset)))) }
    ensures met { AreRight graph.now.types met.new }
    ensures met_before { Begins met.old met.new }
{
    let functions = moved_functions(alloc, graph, other, matches)?;
    let incoming = Incoming {
        graph_types: &graph.types,
        types: &other.types,
        ids: &merge_ids.new_ids.types,
    };
    remapped_values(alloc, &incoming, functions.as_slice(), met)
}
