//! Worlds that hold what they may not, include others or aren't canonical.
ghost use Rattle.std.specs.Prelude.{◌≡◌, [], IfErr, IfOk, length};
ghost use Rattle.wit_data.specs.Each.{Each};
ghost use Rattle.wit_data.specs.Entries.{Entry};
ghost use Rattle.wit_data.specs.declared.world.World.{World};
ghost use Rattle.wit_digraph.specs.Relation.{IsAcyclic};
ghost use Rattle.wit_elaboration.specs.Elaborated.{Elaborated};
ghost use Rattle.wit_elaboration.specs.Elaboration.{graph_uses};
ghost use Rattle.wit_elaboration.specs.Sound.{HasSoundEntries};
ghost use Rattle.wit_elaboration.specs.Valid.{IsOfPackage};
ghost use Rattle.wit_graph_data.specs.declared.error_kind.ResolveErrorKind.TheVariants.{OutOfMemory};
ghost use Rattle.wit_graph_faults.specs.declared.place.GraphPlace.TheVariants as place;
ghost use Rattle.wit_shape.specs.First.{FindsFirst, FindsWithin};

use crate::place::GraphPlace;
use std::alloc::Global;
use wit_data::{Interface, PackageId, Table, World, WorldId, WorldItem, WorldKey};
use wit_elaboration::Elaborator;
use wit_graph_data::{Graph, ResolveResult};
use wit_validity::canonical::is_canonical;
use wit_validity::world_homes::is_of_package;

/// The first import that is an interface without a name of another package than the world's.
pub(crate) fn own_imports(interfaces: &[Interface], worlds: &[World]) -> Option<GraphPlace>
    ensures { FindsWithin place.Import
        (λ _ (world : World) (e : Entry). IsOfPackage interfaces.now world.package e.1)
        (λ (world : World). world.imports) worlds.now result }
{
    for (index, world) in worlds.iter().enumerate() {
        if let Some(at) = entry_of_another(interfaces, &world.package, &world.imports) {
            return Some(GraphPlace::Import(WorldId::from_index(index), at));
        }
    }
    None
}

/// The first such export.
pub(crate) fn own_exports(interfaces: &[Interface], worlds: &[World]) -> Option<GraphPlace>
    ensures { FindsWithin place.Export
        (λ _ (world : World) (e : Entry). IsOfPackage interfaces.now world.package e.1)
        (λ (world : World). world.exports) worlds.now result }
{
    for (index, world) in worlds.iter().enumerate() {
        if let Some(at) = entry_of_another(interfaces, &world.package, &world.exports) {
            return Some(GraphPlace::Export(WorldId::from_index(index), at));
        }
    }
    None
}

fn entry_of_another(
    interfaces: &[Interface],
    home: &Option<PackageId>,
    entries: &Table<WorldKey, WorldItem>,
) -> Option<usize>
    ensures { FindsFirst (λ i. i) (λ _ (e : Entry). IsOfPackage interfaces.now home.now e.1)
        entries.now result }
{
    for index in 0..entries.len() {
        let (_, item) = entries.entry_at(index);
        if !is_of_package(interfaces, home, item) {
            return Some(index);
        }
    }
    None
}

/// The first world that has includes.
pub(crate) fn includes(worlds: &[World]) -> Option<GraphPlace>
    ensures { FindsFirst place.World (λ _ (world : World). world.includes ≡ []) worlds.now result }
{
    let index = worlds.iter().position(|world| !world.includes.is_empty())?;
    Some(GraphPlace::World(WorldId::from_index(index)))
}

/// The first world that isn't its own elaboration.
pub(crate) fn elaborated(alloc: Global, graph: &Graph) -> ResolveResult<Option<GraphPlace>>
    requires acyclic { IsAcyclic (graph_uses graph.now) }
    requires listed { Each (λ (world : World).
        HasSoundEntries graph.now.types (length graph.now.interfaces) world.imports
        world.exports) graph.now.worlds }
    ensures found { IfOk result (λ found.
        FindsFirst place.World
        (λ _ (world : World). Elaborated graph.now.types (graph_uses graph.now) world world)
        graph.now.worlds found) }
    ensures memory { IfErr result (λ e. e ≡ OutOfMemory) }
{
    let mut elaborator = Elaborator::new(
        alloc,
        graph.types.as_slice(),
        graph.interfaces.as_slice(),
    )?;
    let worlds = graph.worlds.as_slice();
    for (index, world) in worlds.iter().enumerate() {
        if !is_canonical(alloc, &mut elaborator, graph, world)? {
            return Ok(Some(GraphPlace::World(WorldId::from_index(index))));
        }
    }
    Ok(None)
}
