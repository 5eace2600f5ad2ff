//! Calls of the layers below a `Resolve`, on a graph or on a copy of it.
ghost use Rattle.std.specs.Prelude.{◌≡◌, ◌<◌, ◌∷◌, [], IfSome, length};
ghost use Rattle.wit_data.specs.Shape.{IsShaped};
ghost use Rattle.wit_elaboration.specs.Valid.{IsValid};
ghost use Rattle.wit_link.specs.Caches.{AreCachesOf};

use crate::marks::{call, copy_of, done, tell, tell_made};
use crate::states::{graph_state, tell_graph};
use std::alloc::Global;
use wit_graph::{Features, Graph, ResolveResult, elaborate, is_elaborable};
use wit_items::{
    Items, PackageName, Text, TrackRule, TryClone, UnresolvedPackage, WorldId, WorldItem, WorldKey,
};
use wit_link::{GraphCaches, Remap, append, append_all, append_all_with, append_with, sort_groups};
use wit_unite::{exportize, importize, merge_by_track, unite};

// ---- adding

/// Calls that add a package to the graph.
pub fn link(
    rt: &impl Print,
    alloc: Global,
    graph: &Graph,
    features: &Features,
    package: &UnresolvedPackage,
) -> Option<()>
    requires valid { IsValid graph.now }
    requires shaped { IsShaped «package».now }
{
    sort(rt, alloc, package)?;
    append_one(rt, alloc, graph, features, package)?;
    append_one_cached(rt, alloc, graph, features, package)?;
    append_list(rt, alloc, graph, features, package)?;
    append_list_cached(rt, alloc, graph, features, package)
}

/// A list of this package alone.
fn alone(alloc: Global, package: &UnresolvedPackage) -> Option<Items<(UnresolvedPackage, u32)>>
    ensures { IfSome result (λ list. list ≡ («package».now, 0) ∷ []) }
{
    let mut list = Items::new(alloc);
    list.push((package.try_clone().ok()?, 0)).ok()?;
    Some(list)
}

/// A list of this package and of one like it under another name, so that there is something to sort.
fn with_another(
    alloc: Global,
    package: &UnresolvedPackage,
) -> Option<Items<(UnresolvedPackage, u32)>>
    ensures { IfSome result (λ list.
        (name : _)
        × (list ≡ («package».now, 0) ∷ (record «package».now { name = name }, 0) ∷ [])) }
{
    let mut list = alone(alloc, package)?;
    let mut other = package.try_clone().ok()?;
    let name = Text::try_from_str(alloc, "another").ok()?;
    other.name = PackageName::new(name.try_clone().ok()?, name, None);
    list.push((other, 0)).ok()?;
    Some(list)
}

fn sort(rt: &impl Print, alloc: Global, package: &UnresolvedPackage) -> Option<()>
    requires { IsShaped «package».now }
{
    let list = with_another(alloc, package)?;
    call(rt, "sort_groups");
    tell(rt, done(sort_groups(alloc, list)))
}

fn append_one(
    rt: &impl Print,
    alloc: Global,
    graph: &Graph,
    features: &Features,
    package: &UnresolvedPackage,
) -> Option<()>
    requires valid { IsValid graph.now }
    requires shaped { IsShaped «package».now }
{
    let mut copy = copy_of(graph)?;
    let package = copy_of(package)?;
    call(rt, "append");
    let answer = append(alloc, &mut copy, features, package, 0);
    tell_graph(rt, answer, &copy)
}

/// Caches of a graph.
fn caches_of(alloc: Global, graph: &Graph) -> Option<GraphCaches>
    requires { IsValid graph.now }
    ensures { IfSome result (AreCachesOf graph.now) }
{
    GraphCaches::of(alloc, graph).ok()
}

fn append_one_cached(
    rt: &impl Print,
    alloc: Global,
    graph: &Graph,
    features: &Features,
    package: &UnresolvedPackage,
) -> Option<()>
    requires valid { IsValid graph.now }
    requires shaped { IsShaped «package».now }
{
    let mut copy = copy_of(graph)?;
    let package = copy_of(package)?;
    let mut caches = caches_of(alloc, &copy)?;
    call(rt, "append_with");
    let answer = append_with(alloc, &mut copy, &mut caches, features, package, 0);
    tell_graph(rt, answer, &copy)
}

fn append_list(
    rt: &impl Print,
    alloc: Global,
    graph: &Graph,
    features: &Features,
    package: &UnresolvedPackage,
) -> Option<()>
    requires valid { IsValid graph.now }
    requires shaped { IsShaped «package».now }
{
    let mut copy = copy_of(graph)?;
    let list = alone(alloc, package)?;
    call(rt, "append_all");
    let answer = append_all(alloc, &mut copy, features, list);
    tell_graph(rt, answer, &copy)
}

fn append_list_cached(
    rt: &impl Print,
    alloc: Global,
    graph: &Graph,
    features: &Features,
    package: &UnresolvedPackage,
) -> Option<()>
    requires valid { IsValid graph.now }
    requires shaped { IsShaped «package».now }
{
    let mut copy = copy_of(graph)?;
    let list = alone(alloc, package)?;
    let mut caches = caches_of(alloc, &copy)?;
    call(rt, "append_all_with");
    let answer = append_all_with(alloc, &mut copy, &mut caches, features, list);
    tell_graph(rt, answer, &copy)
}

// ---- worlds

/// Calls on the world of this index.
pub fn transform(rt: &impl Print, alloc: Global, graph: &Graph, world: usize) -> Option<()>
    requires valid { IsValid graph.now }
    requires world { world < length graph.now.worlds }
{
    elaborate_world(rt, alloc, graph, world)?;
    importize_world(rt, alloc, graph, world)?;
    exportize_world(rt, alloc, graph, world)?;
    merge_tracks(rt, alloc, graph, world)
}

fn elaborate_world(rt: &impl Print, alloc: Global, graph: &Graph, world: usize) -> Option<()> {
    let mut copy = copy_of(graph)?;
    call(rt, "is_elaborable");
    tell_made(rt, is_elaborable(alloc, &copy, WorldId::from_index(world)))?;
    if !is_elaborable(alloc, &copy, WorldId::from_index(world)).ok()? {
        return None;
    }
    call(rt, "elaborate");
    let answer = elaborate(alloc, &mut copy, WorldId::from_index(world));
    tell_graph(rt, answer, &copy)
}

fn importize_world(rt: &impl Print, alloc: Global, graph: &Graph, world: usize) -> Option<()>
    requires valid { IsValid graph.now }
    requires world { world < length graph.now.worlds }
{
    let mut copy = copy_of(graph)?;
    call(rt, "importize of a graph");
    let answer = importize(alloc, &mut copy, WorldId::from_index(world), None);
    tell_graph(rt, answer, &copy)
}

fn exportize_world(rt: &impl Print, alloc: Global, graph: &Graph, world: usize) -> Option<()>
    requires valid { IsValid graph.now }
    requires world { world < length graph.now.worlds }
{
    let mut copy = copy_of(graph)?;
    let filter = Some(|_key: &WorldKey, _item: &WorldItem| true);
    call(rt, "exportize of a graph");
    let answer = exportize(alloc, &mut copy, WorldId::from_index(world), None, filter);
    tell_graph(rt, answer, &copy)
}

fn merge_tracks(rt: &impl Print, alloc: Global, graph: &Graph, world: usize) -> Option<()>
    requires valid { IsValid graph.now }
    requires world { world < length graph.now.worlds }
{
    let mut copy = copy_of(graph)?;
    call(rt, "merge_by_track");
    let rule = TrackRule::Published;
    let answer = merge_by_track(alloc, &mut copy, WorldId::from_index(world), rule);
    tell_graph(rt, answer, &copy)
}

// ---- merging

/// A graph and another one.
pub fn unite_graphs(rt: &impl Print, alloc: Global, graph: &Graph, other: &Graph) -> Option<()>
    requires valid { IsValid graph.now }
    requires other { IsValid other.now }
{
    let other = other.try_clone().ok()?;
    call(rt, "unite");
    tell(rt, types_in(unite(alloc, graph, other, 0)))?;
    graph_state(rt, graph)
}

/// How many types a graph that is made of two has.
fn types_in(answer: ResolveResult<(Graph, Remap)>) -> ResolveResult<usize> {
    match answer {
        Ok((graph, _)) => Ok(graph.types.len()),
        Err(refusal) => Err(refusal),
    }
}
