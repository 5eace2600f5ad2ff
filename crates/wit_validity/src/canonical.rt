//! Whether worlds are canonical: each its own elaboration.
ghost use Rattle.std.specs.Prelude.{◌≡◌, ◌↔◌, IfErr, IfOk, IsTrue, false, length};
ghost use Rattle.wit_elaboration.specs.Elaborated.{Elaborated};
ghost use Rattle.wit_elaboration.specs.Elaboration.{graph_uses};
ghost use Rattle.wit_elaboration.specs.Sound.{HasSoundEntries};
ghost use Rattle.wit_graph_data.specs.declared.error_kind.ResolveErrorKind.TheVariants.{OutOfMemory};
ghost use Rattle.wit_data.specs.Each.{Each};
ghost use Rattle.wit_data.specs.declared.world.World.{World};
ghost use Rattle.wit_digraph.specs.Relation.{IsAcyclic};

use crate::same::same_entries;
use std::alloc::Global;
use wit_data::World;
use wit_elaboration::{Elaborator, Lists};
use wit_graph_data::{Graph, ResolveError, ResolveErrorKind, ResolveResult};

/// Whether each world is its own elaboration.
pub(crate) fn are_canonical(alloc: Global, graph: &Graph) -> ResolveResult<bool>
    requires acyclic { IsAcyclic (graph_uses graph.now) }
    requires listed { Each (λ (world : World).
        HasSoundEntries graph.now.types (length graph.now.interfaces) world.imports
        world.exports) graph.now.worlds }
    ensures holds { IfOk result (λ canonical.
        IsTrue canonical
        ↔ Each
        (λ (world : World). Elaborated graph.now.types (graph_uses graph.now) world world)
        graph.now.worlds) }
    ensures memory { IfErr result (λ e. e ≡ OutOfMemory) }
{
    let mut elaborator = Elaborator::new(
        alloc,
        graph.types.as_slice(),
        graph.interfaces.as_slice(),
    )?;
    for world in graph.worlds.as_slice() {
        if !is_canonical(alloc, &mut elaborator, graph, world)? {
            return Ok(false);
        }
    }
    Ok(true)
}

/// Whether a world is its own elaboration.
pub fn is_canonical(
    alloc: Global,
    elaborator: &mut Elaborator,
    graph: &Graph,
    world: &World,
) -> ResolveResult<bool>
    requires uses { elaborator.old ≡ graph_uses graph.now }
    requires acyclic { IsAcyclic (graph_uses graph.now) }
    requires listed { HasSoundEntries graph.now.types (length graph.now.interfaces)
        world.now.imports world.now.exports }
    ensures holds { IfOk result (λ canonical.
        IsTrue canonical
        ↔ Elaborated graph.now.types (graph_uses graph.now) world.now world.now) }
    ensures memory { IfErr result (λ e. e ≡ OutOfMemory) }
    ensures same { elaborator.new ≡ elaborator.old }
{
    match elaborator.lists_for(alloc, graph, world) {
        Ok(lists) => Ok(are_of(&lists, world)),
        Err(refusal) => without_elaboration(refusal),
    }
}

/// Whether lists are those of a world.
fn are_of(lists: &Lists, world: &World) -> bool
    ensures { IsTrue result
        ↔ ((lists.now.imports ≡ world.now.imports) × (lists.now.exports ≡ world.now.exports)) }
{
    same_entries(&lists.imports, &world.imports) && same_entries(&lists.exports, &world.exports)
}

/// That a world has no elaboration, unless there was no memory to tell.
fn without_elaboration(refusal: ResolveError) -> ResolveResult<bool>
    ensures holds { IfOk result (λ canonical. (canonical ≡ false) × (refusal ≡ OutOfMemory → ⊥)) }
    ensures memory { IfErr result (λ e. e ≡ OutOfMemory) }
{
    if matches!(refusal.kind(), ResolveErrorKind::OutOfMemory) {
        return Err(refusal);
    }
    Ok(false)
}
