//! Another graph goes into a graph.
ghost use Rattle.std.specs.Prelude.{◌≡◌, ◌⊎◌, ℕ, IfErr, IfOk, List, OnErr, OnOk};
ghost use Rattle.wit_elaboration.specs.Elaboration.{graph_uses};
ghost use Rattle.wit_elaboration.specs.Valid.{IsValid};
ghost use Rattle.wit_graph_data.specs.declared.error_kind.ResolveErrorKind.{ResolveErrorKind};
ghost use Rattle.wit_graph_data.specs.declared.error_kind.ResolveErrorKind.TheVariants.{OutOfMemory};
ghost use Rattle.wit_merge_match.specs.Differing.{merge_of_graphs_by};
ghost use Rattle.wit_merge_match.specs.Remapped.{merge_remap};
ghost use Rattle.wit_merge_match.specs.steps.Matched.{AreMatches, merge_ids_of};
ghost use Rattle.wit_merge_spec.specs.Merged.{joined_graph, merged};
ghost use Rattle.wit_merge_spec.specs.Cause.{IsMergeCause, MergeReturnsBorrow};
ghost use Rattle.wit_merge_spec.specs.steps.Leaving.{LeavesGraph};
ghost use Rattle.wit_remap.specs.Grown.{Begins, Grown};
ghost use Rattle.wit_link_resources.specs.steps.Leading.{AreRight};
ghost use Rattle.wit_merge.specs.steps.Behind.{IsComing};
ghost use Rattle.wit_merge.specs.steps.MergeSteps.{DoAgree};

use crate::agreement::check_agreement;
use crate::appending::append;
use crate::coming::{Coming, moved_things};
use crate::joined::joined_graph;
use crate::merge_plan::MergePlan;
use crate::owning::values;
use crate::results::check_results;
use std::alloc::{AllocError, Global};
use wit_data::{Table, TypeId};
use wit_elaboration::Elaborator;
use wit_graph_data::{Graph, ResolveResult};
use wit_link_spec::{NewIds, Values};
use wit_merge_laws::laws::{
    accepted_growth, functions_come, joined_is_grown, merges_grow, merges_stay_valid,
    new_worlds_are_sound, nothing_new_is_cyclic, uses_grow,
};
use wit_merge_match::{Matches, MergeIds, find_ids, find_matches};
use wit_remap::Remap;
use wit_transform::check_and_elaborate;

/// A graph that another one was merged into, and where the things of that one are now.
#[derive(Drop)]
pub struct MergedGraph {
    pub graph: Graph,
    pub remap: Remap,
}

/// Merges another valid graph, which is consumed, into a valid graph: see `merged_copy`, which leaves both as they are.
/// A refusal leaves the graph as it was; the other is gone.
///
/// Source: `merge` of wit-parser 0.263.0.
pub fn merge(
    alloc: Global,
    graph: &Graph,
    other: Graph,
    offset: u32,
) -> ResolveResult<(Graph, Remap)>
    requires valid { IsValid graph.now }
    requires other { IsValid other }
    ensures ok { IfOk result (λ made. made.0 ≡ merged (merge_of_graphs_by graph.now other offset)) }
    ensures remap { IfOk result
        (λ made. made.1 ≡ merge_remap (merge_of_graphs_by graph.now other offset)) }
    ensures valid { IfOk result (λ made. IsValid made.0) }
    ensures cause { IfErr result
        (λ e. (e ≡ OutOfMemory) ⊎ IsMergeCause (merge_of_graphs_by graph.now other offset) e) }
    ensures refuses { (e : ResolveErrorKind)
        → IsMergeCause (merge_of_graphs_by graph.now other offset) e → OnOk result ⊥ }
{
    let MergedGraph {
        graph: merged_graph,
        remap,
    } = merged_copy(alloc, graph, &other, offset)?;
    Ok((merged_graph, remap))
}

/// Merges another valid graph into a copy of a valid graph. Packages, worlds, interfaces and types of one name become
/// one; all else comes behind what is there, its spans moved by an offset; and all worlds are elaborated. The copy is
/// valid.
///
/// Refused if the exports of a world would be in conflict (4), if a package (6) or an interface (22) would depend on
/// itself, if two known stabilities that meet differ (8), if a function that comes has a borrow in its result (15), if
/// things of one name disagree (24), if a span of the other would pass 4294967295 (27), and for memory (28).
///
/// Source: `merge` of wit-parser 0.263.0.
pub fn merged_copy(
    alloc: Global,
    graph: &Graph,
    other: &Graph,
    offset: u32,
) -> ResolveResult<MergedGraph>
    requires valid { IsValid graph.now }
    requires other { IsValid other.now }
    ensures graph { IfOk result
        (λ made. made.graph ≡ merged (merge_of_graphs_by graph.now other.now offset)) }
    ensures remap { IfOk result
        (λ made. made.remap ≡ merge_remap (merge_of_graphs_by graph.now other.now offset)) }
    ensures valid { IfOk result (λ made. IsValid made.graph) }
    ensures cause { IfErr result (λ e.
        (e ≡ OutOfMemory) ⊎ IsMergeCause (merge_of_graphs_by graph.now other.now offset) e) }
    ensures refuses { (e : ResolveErrorKind)
        → IsMergeCause (merge_of_graphs_by graph.now other.now offset) e → OnOk result ⊥ }
{
    let matches = agreed_matches(alloc, graph, other, offset)?;
    merged_by(alloc, graph, other, &matches, offset)
}

/// The matches of two valid graphs that agree. Refused if things of one name disagree (24), if two known stabilities
/// that meet differ (8), if a span of the other would pass 4294967295 (27), and for memory (28). It costs as much as
/// the other graph.
pub fn agreed_matches(
    alloc: Global,
    graph: &Graph,
    other: &Graph,
    offset: u32,
) -> ResolveResult<Matches>
    requires valid { IsValid graph.now }
    requires other { IsValid other.now }
    ensures matches { IfOk result (AreMatches graph.now other.now) }
    ensures agree { OnOk result (DoAgree (merge_of_graphs_by graph.now other.now offset)) }
    ensures cause { IfErr result (λ e.
        (e ≡ OutOfMemory) ⊎ IsMergeCause (merge_of_graphs_by graph.now other.now offset) e) }
{
    let matches = find_matches(alloc, graph, other)?;
    check_agreement(alloc, graph, other, &matches, offset)?;
    Ok(matches)
}

/// `merged_copy` of two graphs that agree, by what is matched of them.
pub fn merged_by(
    alloc: Global,
    graph: &Graph,
    other: &Graph,
    matches: &Matches,
    offset: u32,
) -> ResolveResult<MergedGraph>
    requires valid { IsValid graph.now }
    requires other { IsValid other.now }
    requires agree { DoAgree (merge_of_graphs_by graph.now other.now offset) }
    requires matches { AreMatches graph.now other.now matches.now }
    ensures graph { IfOk result
        (λ made. made.graph ≡ merged (merge_of_graphs_by graph.now other.now offset)) }
    ensures remap { IfOk result
        (λ made. made.remap ≡ merge_remap (merge_of_graphs_by graph.now other.now offset)) }
    ensures valid { IfOk result (λ made. IsValid made.graph) }
    ensures cause { IfErr result (λ e.
        (e ≡ OutOfMemory) ⊎ IsMergeCause (merge_of_graphs_by graph.now other.now offset) e) }
    ensures refuses { (e : ResolveErrorKind)
        → IsMergeCause (merge_of_graphs_by graph.now other.now offset) e → OnOk result ⊥ }
{
    merges_stay_valid();
    let merge_ids = find_ids(alloc, graph, other, matches)?;
    let mut joined = as_listed(alloc, graph, other, matches, &merge_ids, offset)?;
    check_and_elaborate(alloc, &mut joined)?;
    Ok(MergedGraph {
        graph: joined,
        remap: into_remap(merge_ids),
    })
}

/// The same in place where nothing of the graph changes: what comes goes behind what is there, and its worlds alone are
/// elaborated. With an elaborator of the graph, which becomes one of the new graph, and with types of the graph that
/// were met along aliases, each with whether it leads to a resource; what is met more comes behind these. It costs what
/// comes. After a refusal (4, 15, 28) graph and elaborator are as before.
///
/// Source: `merge` of wit-parser 0.263.0.
pub fn append_merge(
    alloc: Global,
    graph: &mut Graph,
    elaborator: &mut Elaborator,
    met: &mut Table<TypeId, bool>,
    other: &Graph,
    matches: &Matches,
    offset: u32,
) -> ResolveResult<Remap>
    requires valid { IsValid graph.old }
    requires other { IsValid other.now }
    requires agree { DoAgree (merge_of_graphs_by graph.old other.now offset) }
    requires matches { AreMatches graph.old other.now matches.now }
    requires leaves { LeavesGraph (merge_of_graphs_by graph.old other.now offset) }
    requires uses { elaborator.old ≡ graph_uses graph.old }
    requires met { AreRight graph.old.types met.old }
    ensures graph { OnOk result
        (graph.new ≡ merged (merge_of_graphs_by graph.old other.now offset)) }
    ensures remap { IfOk result
        (λ remap. remap ≡ merge_remap (merge_of_graphs_by graph.old other.now offset)) }
    ensures valid { IsValid graph.new }
    ensures uses { elaborator.new ≡ graph_uses graph.new }
    ensures unchanged { OnErr result (graph.new ≡ graph.old) }
    ensures grown { Grown graph.old graph.new }
    ensures rows { Begins elaborator.old elaborator.new }
    ensures met { AreRight graph.new.types met.new }
    ensures met_before { Begins met.old met.new }
    ensures cause { IfErr result (λ e.
        (e ≡ OutOfMemory) ⊎ IsMergeCause (merge_of_graphs_by graph.old other.now offset) e) }
    ensures refuses { (e : ResolveErrorKind)
        → IsMergeCause (merge_of_graphs_by graph.old other.now offset) e → OnOk result ⊥ }
{
    joined_is_grown();
    uses_grow();
    nothing_new_is_cyclic();
    new_worlds_are_sound();
    functions_come();
    merges_grow();
    accepted_growth();
    merges_stay_valid();
    let merge_ids = find_ids(alloc, graph, other, matches)?;
    let coming = what_comes(alloc, graph, other, matches, &merge_ids, met, offset)?;
    append(alloc, graph, elaborator, coming)?;
    Ok(into_remap(merge_ids))
}

/// What comes behind the graph.
fn what_comes(
    alloc: Global,
    graph: &Graph,
    other: &Graph,
    matches: &Matches,
    merge_ids: &MergeIds,
    met: &mut Table<TypeId, bool>,
    offset: u32,
) -> Result<Coming, AllocError>
    requires valid { IsValid graph.now }
    requires other { IsValid other.now }
    requires agree { DoAgree (merge_of_graphs_by graph.now other.now offset) }
    requires matches { AreMatches graph.now other.now matches.now }
    requires merge_ids { merge_ids.now
        ≡ merge_ids_of (merge_of_graphs_by graph.now other.now offset) }
    requires met { AreRight graph.now.types met.old }
    ensures comes { IfOk result (IsComing (merge_of_graphs_by graph.now other.now offset)) }
    ensures met { AreRight graph.now.types met.new }
    ensures met_before { Begins met.old met.new }
{
    let Values {
        new_ids: value_ids,
        owns,
    } = values(alloc, graph, other, matches, merge_ids, met)?;
    let plan = MergePlan {
        graph,
        other,
        matches,
        merge_ids,
        values: &value_ids,
        offset,
    };
    moved_things(alloc, &plan, owns)
}

/// Where things are now, as it is answered.
fn into_remap(merge_ids: MergeIds) -> Remap
    ensures { result
        ≡ record {
          types = merge_ids.new_ids.types;
          interfaces = merge_ids.new_ids.interfaces;
          worlds = merge_ids.new_ids.worlds;
          packages = merge_ids.packages;
        } }
{
    let MergeIds { new_ids, packages } = merge_ids;
    let NewIds {
        types,
        interfaces,
        worlds,
    } = new_ids;
    Remap::from_lists(types, interfaces, worlds, packages)
}

/// The two graphs as one, as they are listed, where no function that comes returns a borrow (15).
fn as_listed(
    alloc: Global,
    graph: &Graph,
    other: &Graph,
    matches: &Matches,
    merge_ids: &MergeIds,
    offset: u32,
) -> ResolveResult<Graph>
    requires valid { IsValid graph.now }
    requires other { IsValid other.now }
    requires agree { DoAgree (merge_of_graphs_by graph.now other.now offset) }
    requires matches { AreMatches graph.now other.now matches.now }
    requires merge_ids { merge_ids.now
        ≡ merge_ids_of (merge_of_graphs_by graph.now other.now offset) }
    ensures joined { IfOk result
        (λ joined. joined ≡ joined_graph (merge_of_graphs_by graph.now other.now offset)) }
    ensures none { OnOk result ((message : List ℕ)
        → MergeReturnsBorrow (merge_of_graphs_by graph.now other.now offset) message → ⊥) }
    ensures cause { IfErr result (λ e.
        (e ≡ OutOfMemory) ⊎ IsMergeCause (merge_of_graphs_by graph.now other.now offset) e) }
{
    let mut met = Table::new(alloc);
    let Values {
        new_ids: value_ids,
        owns,
    } = values(alloc, graph, other, matches, merge_ids, &mut met)?;
    let plan = MergePlan {
        graph,
        other,
        matches,
        merge_ids,
        values: &value_ids,
        offset,
    };
    let joined = joined_graph(alloc, &plan, owns)?;
    check_results(alloc, &plan, joined.types.as_slice())?;
    Ok(joined)
}
