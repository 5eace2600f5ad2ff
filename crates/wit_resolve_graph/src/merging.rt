//! Another graph that goes into the one that a `Resolve` keeps.
ghost use Rattle.std.specs.Prelude.{◌≡◌, ◌⊎◌, IfErr, IfOk, OnErr, OnOk};
ghost use Rattle.wit_merge_match.specs.Differing.{merge_of_graphs_by};
ghost use Rattle.wit_elaboration.specs.Valid.{IsValid};
ghost use Rattle.wit_graph_data.specs.declared.error_kind.ResolveErrorKind.{ResolveErrorKind};
ghost use Rattle.wit_graph_data.specs.declared.error_kind.ResolveErrorKind.TheVariants.{OutOfMemory};
ghost use Rattle.wit_merge_spec.specs.Cause.{IsMergeCause};
ghost use Rattle.wit_merge_spec.specs.Merged.{merged};
ghost use Rattle.wit_merge_match.specs.steps.Matched.{AreMatches};
ghost use Rattle.wit_merge_spec.specs.steps.Leaving.{LeavesGraph};
ghost use Rattle.wit_merge_match.specs.Remapped.{merge_remap};
ghost use Rattle.wit_merge.specs.steps.MergeSteps.{DoAgree};
ghost use Rattle.wit_resolve_graph.specs.State.{AreKept};

use crate::kept::Kept;
use std::alloc::Global;
use wit_graph_data::{Graph, ResolveResult};
use wit_link::CachesMark;
use wit_merge::{MergedGraph, agreed_matches, append_merge, merged_by};
use wit_merge_match::{Matches, leaves_graph};
use wit_remap::{Mark, Remap};

/// Makes a graph one with another, whose spans move by an offset, and answers where the things of the other stand now:
/// see `wit_merge::merged_copy`. After a refusal nothing has changed. What is kept is of the graph, and becomes that of the
/// new graph.
pub(crate) fn merge_kept(
    alloc: Global,
    graph: &mut Graph,
    kept: &mut Kept,
    other: &Graph,
    offset: u32,
) -> ResolveResult<Remap>
    requires kept { AreKept graph.old kept.old }
    requires other { IsValid other.now }
    ensures graph { OnOk result
        (graph.new ≡ merged (merge_of_graphs_by graph.old other.now offset)) }
    ensures remap { IfOk result
        (λ remap. remap ≡ merge_remap (merge_of_graphs_by graph.old other.now offset)) }
    ensures kept { AreKept graph.new kept.new }
    ensures unchanged { OnErr result (graph.new ≡ graph.old) }
    ensures cause { IfErr result (λ kind.
        (kind ≡ OutOfMemory)
        ⊎ IsMergeCause (merge_of_graphs_by graph.old other.now offset) kind) }
    ensures refuses { (kind : ResolveErrorKind)
        → IsMergeCause (merge_of_graphs_by graph.old other.now offset) kind → OnOk result ⊥ }
{
    let matches = agreed_matches(alloc, graph, other, offset)?;
    if leaves_graph(graph, other, &matches) {
        return append_merge_kept(alloc, graph, kept, other, &matches, offset);
    }
    let made = merged_by(alloc, graph, other, &matches, offset)?;
    let new_kept = Kept::of(alloc, &made.graph)?;
    let MergedGraph {
        graph: merged_graph,
        remap,
    } = made;
    *graph = merged_graph;
    *kept = new_kept;
    Ok(remap)
}

/// The same where nothing of the graph changes: see `wit_merge::append_merge`. What is kept grows by what comes.
fn append_merge_kept(
    alloc: Global,
    graph: &mut Graph,
    kept: &mut Kept,
    other: &Graph,
    matches: &Matches,
    offset: u32,
) -> ResolveResult<Remap>
    requires kept { AreKept graph.old kept.old }
    requires other { IsValid other.now }
    requires agree { DoAgree (merge_of_graphs_by graph.old other.now offset) }
    requires matches { AreMatches graph.old other.now matches.now }
    requires leaves { LeavesGraph (merge_of_graphs_by graph.old other.now offset) }
    ensures graph { OnOk result
        (graph.new ≡ merged (merge_of_graphs_by graph.old other.now offset)) }
    ensures remap { IfOk result
        (λ remap. remap ≡ merge_remap (merge_of_graphs_by graph.old other.now offset)) }
    ensures kept { AreKept graph.new kept.new }
    ensures unchanged { OnErr result (graph.new ≡ graph.old) }
    ensures cause { IfErr result (λ kind.
        (kind ≡ OutOfMemory)
        ⊎ IsMergeCause (merge_of_graphs_by graph.old other.now offset) kind) }
    ensures refuses { (kind : ResolveErrorKind)
        → IsMergeCause (merge_of_graphs_by graph.old other.now offset) kind → OnOk result ⊥ }
{
    let mark = Mark::of(graph);
    let known = CachesMark::of(&kept.caches);
    let remap = append_merge(
        alloc,
        graph,
        &mut kept.caches.elaborator,
        &mut kept.caches.met,
        other,
        matches,
        offset,
    )?;
    kept.follow(alloc, graph, mark, known)?;
    Ok(remap)
}
