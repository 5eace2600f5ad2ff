//! Imports of a world merged by tracks.
ghost use Rattle.std.specs.Prelude.{◌≡◌, ◌⊎◌, ◌<◌, IfErr, IfOk, OnErr, OnOk, length};
ghost use Rattle.wit_elaboration.specs.Valid.{IsValid};
ghost use Rattle.wit_graph_data.specs.declared.error_kind.ResolveErrorKind.{ResolveErrorKind};
ghost use Rattle.wit_graph_data.specs.declared.error_kind.ResolveErrorKind.TheVariants.{OutOfMemory};
ghost use Rattle.wit_semver.specs.SemverMerged.{semver_merged, with_new_entries, IsSemverMergeCause};
ghost use Rattle.wit_semver.specs.steps.Merging.{graph_after};
ghost use Rattle.wit_semver.specs.steps.Replacing.{AreNewEntries, HasNewEntries, IsSemverMergeReady, semver_merge_of, with_imports};

use crate::kept_imports::types_of_entries;
use crate::laws::{same_types_keep_worlds, semver_merges_stay_valid};
use crate::new_entries::with_new_entries;
use crate::semver_merge_plan::SemverMergePlan;
use std::alloc::{AllocError, Global};
use wit_data::{Items, Table, TrackRule, TypeId, WorldId, WorldItem, WorldKey};
use wit_graph_data::{Graph, ResolveResult};
use wit_transform::check_and_elaborate;

/// What a world lists after its imports are merged, the types that this brings, and what types name then, of those that name
/// others than before.
#[derive(Drop)]
struct NewEntries {
    imports: Table<WorldKey, WorldItem>,
    types: Items<TypeId>,
    targets: Table<TypeId, TypeId>,
}

/// What merging the imports of a world by tracks changes of a graph, made beside it.
#[derive(Drop)]
pub enum SemverChange {
    /// Each type names what it named, so all stays but the imports of the world, of which these are left.
    Imports(Table<WorldKey, WorldItem>),
    /// Some types name others, so any world may have to import others: the whole graph.
    Graph(Graph),
}

/// What a world lists without its replaced imports, and what types name then: what its other entries use of a replaced
/// interface they use of the newest, where that has a type of the name.
fn new_entries(alloc: Global, plan: &SemverMergePlan<'_>) -> Result<NewEntries, AllocError>
    requires { IsSemverMergeReady plan.now }
    ensures { IfOk result (λ entries. HasNewEntries (semver_merge_of plan.now) entries) }
{
    let imports = plan.kept_imports(alloc)?;
    let types = types_of_entries(alloc, plan.graph, &imports, &plan.world.exports)?;
    let targets = plan.new_targets(alloc, &types)?;
    Ok(NewEntries {
        imports,
        types,
        targets,
    })
}

/// The new entries of a world, where nothing that reads the graph as it is holds against them. Refused where the newest
/// lacks a type that is used, or disagrees in a function (25).
fn checked_entries(
    alloc: Global,
    graph: &Graph,
    world: WorldId,
    rule: TrackRule,
) -> ResolveResult<NewEntries>
    requires valid { IsValid graph.now }
    requires world { world < length graph.now.worlds }
    ensures ok { IfOk result
        (λ entries. AreNewEntries rule graph.now world entries.imports entries.targets) }
    ensures cause { IfErr result
        (λ e. (e ≡ OutOfMemory) ⊎ IsSemverMergeCause rule graph.now world e) }
{
    let current = graph.worlds.at(world.index());
    let plan = SemverMergePlan::new(alloc, graph, current, rule)?;
    plan.check_functions(alloc)?;
    let entries = new_entries(alloc, &plan)?;
    plan.check_types(alloc, &entries.types)?;
    Ok(entries)
}

/// A copy of a valid graph, in which a world has its new entries and types name what they are to name after the imports
/// of the world are merged by a rule of tracks: what is to be elaborated. Of a type that the newest lacks (25) all stays as
/// it was. The only error is want of memory.
pub fn graph_with_new_entries(
    alloc: Global,
    graph: &Graph,
    world: WorldId,
    rule: TrackRule,
) -> Result<Graph, AllocError>
    requires valid { IsValid graph.now }
    requires world { world < length graph.now.worlds }
    ensures { IfOk result (λ made. made ≡ with_new_entries rule graph.now world) }
{
    let current = graph.worlds.at(world.index());
    let plan = SemverMergePlan::new(alloc, graph, current, rule)?;
    let entries = new_entries(alloc, &plan)?;
    let NewEntries {
        imports,
        targets,
        ..
    } = entries;
    with_new_entries(alloc, graph, world, imports, &targets)
}

/// Merges the imports of a world of a valid graph by a rule of tracks, beside the graph. Of the interfaces that the
/// world imports under their own keys, each track keeps the greatest version; types that its other entries use of a
/// replaced interface come from the greatest; and all worlds are elaborated. The graph with this change is valid, and
/// each thing keeps its id.
///
/// If no type names another one than before, every world already is its own elaboration: then nothing is elaborated,
/// and the call costs as much as the world holds. Else it costs a copy of the graph.
///
/// Refused if the greatest version lacks a type that is used, or disagrees in a function (25), if a type (23), an
/// interface (22) or a package (6) would depend on itself, if the exports of some world are in conflict (4), and for
/// memory (28).
///
/// Source: `merge_world_imports_based_on_semver` of wit-parser 0.263.0.
pub fn find_semver_merge(
    alloc: Global,
    graph: &Graph,
    world: WorldId,
    rule: TrackRule,
) -> ResolveResult<SemverChange>
    requires valid { IsValid graph.now }
    requires world { world < length graph.now.worlds }
    ensures ok { IfOk result
        (λ merge. graph_after graph.now world merge ≡ semver_merged rule graph.now world) }
    ensures valid { IfOk result (λ merge. IsValid (graph_after graph.now world merge)) }
    ensures cause { IfErr result
        (λ e. (e ≡ OutOfMemory) ⊎ IsSemverMergeCause rule graph.now world e) }
    ensures refuses { (e : ResolveErrorKind) → IsSemverMergeCause rule graph.now world e
        → OnOk result ⊥ }
{
    semver_merges_stay_valid();
    same_types_keep_worlds();
    let entries = checked_entries(alloc, graph, world, rule)?;
    let NewEntries {
        imports,
        targets,
        ..
    } = entries;
    if targets.is_empty() {
        return Ok(SemverChange::Imports(imports));
    }
    let mut merged = with_new_entries(alloc, graph, world, imports, &targets)?;
    check_and_elaborate(alloc, &mut merged)?;
    Ok(SemverChange::Graph(merged))
}

/// Puts imports in the place of those of a world. It takes no memory.
pub fn place_imports(graph: &mut Graph, world: WorldId, imports: Table<WorldKey, WorldItem>)
    requires world { world < length graph.old.worlds }
    ensures { graph.new ≡ with_imports graph.old world imports }
{
    let current = graph.worlds.at_mut(world.index());
    current.imports = imports;
}

/// Merges the imports of a world of a valid graph by a rule of tracks, in place: see `find_semver_merge`. A refusal leaves
/// the graph as it was.
///
/// Source: `merge_world_imports_based_on_semver` of wit-parser 0.263.0.
pub fn merge_by_track(
    alloc: Global,
    graph: &mut Graph,
    world: WorldId,
    rule: TrackRule,
) -> ResolveResult<()>
    requires valid { IsValid graph.old }
    requires world { world < length graph.old.worlds }
    ensures ok { OnOk result (graph.new ≡ semver_merged rule graph.old world) }
    ensures valid { OnOk result (IsValid graph.new) }
    ensures unchanged { OnErr result (graph.new ≡ graph.old) }
    ensures cause { IfErr result
        (λ e. (e ≡ OutOfMemory) ⊎ IsSemverMergeCause rule graph.old world e) }
    ensures refuses { (e : ResolveErrorKind) → IsSemverMergeCause rule graph.old world e
        → OnOk result ⊥ }
{
    let merge = find_semver_merge(alloc, graph, world, rule)?;
    match merge {
        SemverChange::Imports(imports) => {
            place_imports(graph, world, imports);
            Ok(())
        }
        SemverChange::Graph(merged) => {
            *graph = merged;
            Ok(())
        }
    }
}
