//! A world with its includes is put behind the worlds of a graph.
ghost use Rattle.std.specs.Prelude.{◌≡◌, ◌⊎◌, ℕ, IfErr, IfOk, OnOk};
ghost use Rattle.wit_elaboration.specs.Elaboration.{graph_uses};
ghost use Rattle.wit_graph_data.specs.Error.{NoCause};
ghost use Rattle.wit_graph_data.specs.declared.error_kind.ResolveErrorKind.TheVariants.{OutOfMemory};
ghost use Rattle.wit_link_include.specs.steps.Included.{CanBeAdded, CanIncludeAll, StopsAtInclude};
ghost use Rattle.wit_remap.specs.Grown.{Begins, Grown};
ghost use Rattle.wit_link_spec.specs.Include.{with_entry_lists, with_several};
ghost use Rattle.wit_link_spec.specs.WorldReasons.{IsAcceptedAt, IsWorldCause};
ghost use Rattle.wit_link_spec.specs.steps.Parts.{with_including};

use crate::finishing::finish_world;
use crate::including::include;
use std::alloc::Global;
use wit_data::{Items, PackageId, World, WorldInclude};
use wit_elaboration::Elaborator;
use wit_graph_data::{Graph, ResolveResult};

/// A world with its includes, one after another; the graph has their copies at its ends.
fn include_each(
    alloc: Global,
    graph: &mut Graph,
    world: World,
    includes: &Items<WorldInclude>,
    home: PackageId,
) -> ResolveResult<World>
    requires { CanIncludeAll home graph.old world includes.now }
    ensures graph { OnOk result
        (graph.new ≡ (with_several home graph.old world includes.now).graph) }
    ensures world { IfOk result (λ new.
        new ≡ with_entry_lists world (with_several home graph.old world includes.now).lists) }
    ensures fine { OnOk result ((j : ℕ) → IsAcceptedAt home graph.old world includes.now j) }
    ensures cause { IfErr result (λ kind.
        (kind ≡ OutOfMemory)
        ⊎ ((j : ℕ) × StopsAtInclude home graph.old world includes.now j kind)) }
    ensures grown { Grown graph.old graph.new }
{
    let mut world = world;
    for included in includes.as_slice() {
        world = include(alloc, graph, world, included, home)?;
    }
    Ok(world)
}

/// Puts a world of package `home` behind the worlds of a graph: its includes one after another, its setters after
/// their getters, elaborated.
///
/// The graph is partially linked: its types, interfaces and worlds are good, and nothing uses or refers to itself. The
/// elaborator is one of the graph. Each world that is included is there and can be included, and the world can be
/// finished.
///
/// Refused as an include is (7, 8, 16) and as a world is that is finished (4, 17, 18), and for memory (28). The graph
/// and the rows of the elaborator may then have grown at their ends, and nothing else has changed.
///
/// Source: `process_world_includes`, `validate_world_strongly_unique_names` and `elaborate_world` of wit-parser
/// 0.263.0.
pub fn add_world(
    alloc: Global,
    graph: &mut Graph,
    elaborator: &mut Elaborator,
    world: World,
    includes: &Items<WorldInclude>,
    home: PackageId,
) -> ResolveResult<()>
    requires uses { elaborator.old ≡ graph_uses graph.old }
    requires can { CanBeAdded home graph.old world includes.now }
    ensures ok { OnOk result (graph.new ≡ with_including home graph.old world includes.now) }
    ensures uses { OnOk result (elaborator.new ≡ graph_uses graph.new) }
    ensures rows { Begins elaborator.old elaborator.new }
    ensures fine { OnOk result (NoCause (IsWorldCause home graph.old world includes.now)) }
    ensures cause { IfErr result
        (λ kind. (kind ≡ OutOfMemory) ⊎ IsWorldCause home graph.old world includes.now kind) }
    ensures grown { Grown graph.old graph.new }
{
    let world = include_each(alloc, graph, world, includes, home)?;
    let types = graph.types.as_slice();
    elaborator.grow(alloc, types, graph.interfaces.as_slice())?;
    finish_world(alloc, graph, elaborator, world)?;
    Ok(())
}
