//! All worlds of a graph are elaborated, or none.
ghost use Rattle.std.specs.Prelude.{◌≡◌, ◌⊎◌, IfErr, IfOk, OnErr, OnOk, length};
ghost use Rattle.wit_elaboration.specs.Elaboration.{IsConflictError, graph_uses, all_elaborated, elaborated_world};
ghost use Rattle.wit_elaboration.specs.steps.Elaboration.{AreListsOf, IsRefusedWorld, with_lists};
ghost use Rattle.wit_elaboration.specs.Imported.{HasTransitiveConflict};
ghost use Rattle.wit_elaboration.specs.Sound.{HasSoundEntries};
ghost use Rattle.wit_graph_data.specs.declared.error_kind.ResolveErrorKind.TheVariants.{OutOfMemory};
ghost use Rattle.wit_data.specs.Each.{Each};
ghost use Rattle.wit_data.specs.declared.world.World.{World};
ghost use Rattle.wit_digraph.specs.Relation.{IsAcyclic};

use crate::closure::Closure;
use crate::elaboration::Elaborator;
use crate::entries::Lists;
use std::alloc::Global;
use wit_data::World;
use wit_graph_data::{Graph, ResolveResult};
use wit_values::Items;

/// Elaborates all worlds of a graph over one closure. Uses of interfaces have no cycle; in each world the key of an
/// interface names that interface, and the interfaces of all entries are there. It costs as much as the types of all
/// interfaces, their uses and what each world reaches.
///
/// Refused with `InvalidTransitiveDependency` (4), as `elaborate` is, if the exports of some world are in conflict.
/// Else it is refused only for want of memory (28). A refusal leaves the graph as it was.
///
/// Source: `merge` and `merge_world_imports_based_on_semver` of wit-parser 0.263.0.
pub fn elaborate_all(alloc: Global, graph: &mut Graph) -> ResolveResult<()>
    requires acyclic { IsAcyclic (graph_uses graph.old) }
    requires listed { Each (λ (world : World).
        HasSoundEntries graph.old.types (length graph.old.interfaces) world.imports
        world.exports) graph.old.worlds }
    ensures ok { OnOk result (graph.new ≡ all_elaborated graph.old) }
    ensures no_conflict { OnOk result
        (Each (λ (world : World). HasTransitiveConflict (graph_uses graph.old) world.exports → ⊥)
        graph.old.worlds) }
    ensures unchanged { OnErr result (graph.new ≡ graph.old) }
    ensures cause { IfErr result (λ e. (e ≡ OutOfMemory) ⊎ IsRefusedWorld graph.old e) }
{
    let lists = all_lists(alloc, graph)?;
    place_lists(graph, lists);
    Ok(())
}

/// The elaborated lists of all worlds, in their order, but of those that keep their own.
fn all_lists(alloc: Global, graph: &Graph) -> ResolveResult<Items<Option<Lists>>>
    requires acyclic { IsAcyclic (graph_uses graph.now) }
    requires listed { Each (λ (world : World).
        HasSoundEntries graph.now.types (length graph.now.interfaces) world.imports
        world.exports) graph.now.worlds }
    ensures lists { IfOk result (AreListsOf graph.now graph.now.worlds) }
    ensures no_conflict { OnOk result
        (Each (λ (world : World). HasTransitiveConflict (graph_uses graph.now) world.exports → ⊥)
        graph.now.worlds) }
    ensures cause { IfErr result (λ e. (e ≡ OutOfMemory) ⊎ IsRefusedWorld graph.now e) }
{
    let closure = Closure::of(alloc, graph)?;
    let mut elaborator = Elaborator::of(alloc, closure)?;
    let mut all = Items::new(alloc);
    for world in graph.worlds.as_slice() {
        let lists = new_lists(alloc, graph, &mut elaborator, world)?;
        all.push(lists)?;
    }
    Ok(all)
}

/// The elaborated lists of a world over the types and interfaces of a graph, or None where the world is complete, so
/// that its own are these.
fn new_lists(
    alloc: Global,
    graph: &Graph,
    elaborator: &mut Elaborator,
    world: &World,
) -> ResolveResult<Option<Lists>>
    requires uses { elaborator.old ≡ graph_uses graph.now }
    requires acyclic { IsAcyclic (graph_uses graph.now) }
    requires listed { HasSoundEntries graph.now.types (length graph.now.interfaces)
        world.now.imports world.now.exports }
    ensures lists { IfOk result
        (λ lists. with_lists world.now lists ≡ elaborated_world graph.now world.now) }
    ensures no_conflict { OnOk result
        (HasTransitiveConflict (graph_uses graph.now) world.now.exports → ⊥) }
    ensures cause { IfErr result (λ e. (e ≡ OutOfMemory) ⊎ IsConflictError graph.now world.now e) }
    ensures same { elaborator.new ≡ elaborator.old }
{
    let complete = elaborator.is_complete(graph, world)?;
    if complete {
        return Ok(None);
    }
    Ok(Some(elaborator.lists_for(alloc, graph, world)?))
}

/// Puts the elaborated lists of worlds in the place of their own. It takes no memory.
fn place_lists(graph: &mut Graph, all: Items<Option<Lists>>)
    requires { AreListsOf graph.old graph.old.worlds all }
    ensures { graph.new ≡ all_elaborated graph.old }
{
    let mut left = all;
    while let Some(lists) = left.pop() {
        let world = graph.worlds.at_mut(left.len());
        set_lists(world, lists);
    }
}

/// Puts other lists in the place of those of a world, where there are others.
fn set_lists(world: &mut World, lists: Option<Lists>)
    ensures { world.new ≡ with_lists world.old lists }
{
    match lists {
        Some(lists) => {
            world.imports = lists.imports;
            world.exports = lists.exports;
        }
        None => {}
    }
}
