//! Whether the spans of a graph can be moved.
ghost use Rattle.std.specs.Prelude.{◌≡◌, false, true};
ghost use Rattle.wit_graph_data.specs.declared.graph.Graph.{Graph};
ghost use Rattle.wit_merge_match.specs.Differing.{merge_of_graphs_by};
ghost use Rattle.wit_merge_spec.specs.steps.Parts.{MergeOverflows};

use wit_graph_data::Graph;
use wit_remap::parts_fit;

/// Whether no span of the other graph passes the last position, 4294967295, when it is moved by so many positions.
/// All its spans are asked, also those of what is matched.
pub fn spans_fit(other: &Graph, offset: u32) -> bool
    ensures fit { result ≡ true → (graph : Graph)
        → MergeOverflows (merge_of_graphs_by graph other.now offset) → ⊥ }
    ensures pass { result ≡ false → (graph : Graph)
        → MergeOverflows (merge_of_graphs_by graph other.now offset) }
{
    parts_fit(
        other.types.as_slice(),
        other.interfaces.as_slice(),
        other.worlds.as_slice(),
        offset,
    )
}
