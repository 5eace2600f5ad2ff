//! Imports of a world merged by tracks in the graph that a `Resolve` keeps.
ghost use Rattle.std.specs.Prelude.{◌≡◌, ◌⊎◌, ◌<◌, IfErr, OnErr, OnOk, length};
ghost use Rattle.wit_graph_data.specs.declared.error_kind.ResolveErrorKind.{ResolveErrorKind};
ghost use Rattle.wit_graph_data.specs.declared.error_kind.ResolveErrorKind.TheVariants.{OutOfMemory};
ghost use Rattle.wit_semver.specs.SemverMerged.{semver_merged, IsSemverMergeCause};
ghost use Rattle.wit_resolve_graph.specs.State.{AreKept};

use crate::kept::Kept;
use std::alloc::Global;
use wit_data::{TrackRule, WorldId};
use wit_graph_data::{Graph, ResolveResult};
use wit_semver::{SemverChange, find_semver_merge, place_imports};

/// Merges the imports of a world of a graph by a rule of tracks: see `wit_semver::merge_by_track`. After a refusal
/// nothing has changed. What is kept is of the graph, and becomes that of the new graph: it is read anew where types name
/// others, and stays where none does.
pub(crate) fn merge_kept_by_track(
    alloc: Global,
    graph: &mut Graph,
    kept: &mut Kept,
    world: WorldId,
    rule: TrackRule,
) -> ResolveResult<()>
    requires kept { AreKept graph.old kept.old }
    requires world { world < length graph.old.worlds }
    ensures graph { OnOk result (graph.new ≡ semver_merged rule graph.old world) }
    ensures kept { AreKept graph.new kept.new }
    ensures unchanged { OnErr result (graph.new ≡ graph.old) }
    ensures cause { IfErr result
        (λ kind. (kind ≡ OutOfMemory) ⊎ IsSemverMergeCause rule graph.old world kind) }
    ensures refuses { (kind : ResolveErrorKind) → IsSemverMergeCause rule graph.old world kind
        → OnOk result ⊥ }
{
    let merge = find_semver_merge(alloc, graph, world, rule)?;
    match merge {
        SemverChange::Imports(imports) => {
            place_imports(graph, world, imports);
            Ok(())
        }
        SemverChange::Graph(merged) => {
            *kept = Kept::of(alloc, &merged)?;
            *graph = merged;
            Ok(())
        }
    }
}
