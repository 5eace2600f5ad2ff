//! A world is finished.
ghost use Rattle.std.specs.Prelude.{◌≡◌, ◌⊎◌, IfErr, IfOk, OnOk, OnErr, length};
ghost use Rattle.wit_graph_data.specs.Error.{NoCause};
ghost use Rattle.wit_link_spec.specs.WorldReasons.{IsFinishCause};
ghost use Rattle.wit_elaboration.specs.Elaboration.{elaborated_world, IsConflictError, graph_uses};
ghost use Rattle.wit_elaboration.specs.Imported.{HasTransitiveConflict};
ghost use Rattle.wit_elaboration.specs.Sound.{HasSoundEntries};
ghost use Rattle.wit_graph_data.specs.declared.error_kind.ResolveErrorKind.TheVariants.{OutOfMemory};
ghost use Rattle.wit_labels.specs.Setters.{setters_placed};
ghost use Rattle.wit_digraph.specs.Relation.{IsAcyclic};
ghost use Rattle.wit_link_spec.specs.steps.Parts.{with_setters_placed, with_finished};

use crate::labels::check_labels;
use std::alloc::{AllocError, Global};
use std::mem;
use wit_data::{Table, World};
use wit_elaboration::Elaborator;
use wit_graph_data::{Graph, ResolveResult};
use wit_labels::place_setters;

/// Finishes a world over the types and interfaces of a graph and puts it behind the graph's worlds: its setters
/// go after their getters, and it is elaborated.
///
/// Refused where two labels of one list are not strongly unique (17), a setter has no getter beside it (18), what the exports
/// need from outside is exported (4), and for memory (28); the graph is then as before.
#[tactic(auto, using(crate::proofs::Causes::label_cause, crate::proofs::Causes::conflict_cause))]
pub(crate) fn finish_world(
    alloc: Global,
    graph: &mut Graph,
    elaborator: &mut Elaborator,
    world: World,
) -> ResolveResult<()>
    requires uses { elaborator.old ≡ graph_uses graph.old }
    requires acyclic { IsAcyclic (graph_uses graph.old) }
    requires listed { HasSoundEntries graph.old.types (length graph.old.interfaces)
        (setters_placed world.imports) (setters_placed world.exports) }
    ensures ok { OnOk result (graph.new ≡ with_finished graph.old world) }
    ensures fine { OnOk result (NoCause (IsFinishCause graph.old world)) }
    ensures unchanged { OnErr result (graph.new ≡ graph.old) }
    ensures cause { IfErr result
        (λ kind. (kind ≡ OutOfMemory) ⊎ IsFinishCause graph.old world kind) }
    ensures same { elaborator.new ≡ elaborator.old }
{
    check_labels(alloc, &world)?;
    let world = with_placed_setters(alloc, world)?;
    let world = elaborated(alloc, graph, elaborator, world)?;
    Ok(graph.worlds.push(world)?)
}

/// The world elaborated over the types and interfaces of a graph. One that is complete stays as it is.
fn elaborated(
    alloc: Global,
    graph: &Graph,
    elaborator: &mut Elaborator,
    world: World,
) -> ResolveResult<World>
    requires uses { elaborator.old ≡ graph_uses graph.now }
    requires acyclic { IsAcyclic (graph_uses graph.now) }
    requires listed { HasSoundEntries graph.now.types (length graph.now.interfaces) world.imports
        world.exports }
    ensures ok { IfOk result (λ new. new ≡ elaborated_world graph.now world) }
    ensures no_conflict { OnOk result
        (HasTransitiveConflict (graph_uses graph.now) world.exports → ⊥) }
    ensures cause { IfErr result (λ e. (e ≡ OutOfMemory) ⊎ IsConflictError graph.now world e) }
    ensures same { elaborator.new ≡ elaborator.old }
{
    let mut world = world;
    let complete = elaborator.is_complete(graph, &world)?;
    if complete {
        world.imports.shrink();
        world.exports.shrink();
    } else {
        let lists = elaborator.lists_for(alloc, graph, &world)?;
        world.imports = lists.imports;
        world.exports = lists.exports;
    }
    Ok(world)
}

/// The world with its setters after their getters.
fn with_placed_setters(alloc: Global, world: World) -> Result<World, AllocError>
    ensures { IfOk result (λ new. new ≡ with_setters_placed world) }
{
    let mut world = world;
    let imports = mem::replace(&mut world.imports, Table::new(alloc));
    let exports = mem::replace(&mut world.exports, Table::new(alloc));
    world.imports = place_setters(alloc, imports)?;
    world.exports = place_setters(alloc, exports)?;
    Ok(world)
}
