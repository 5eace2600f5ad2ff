//! Which interface replaces which.
ghost use Rattle.std.specs.Prelude.{◌≡◌, Contains, IfOk, false};
ghost use Rattle.std.specs.Option.{option_map_or};
ghost use Rattle.wit_elaboration.specs.Valid.{IsValid};
ghost use Rattle.wit_elaboration.specs.Entries.{keyed_interfaces};
ghost use Rattle.wit_data.specs.declared.world.World.{World};
ghost use Rattle.wit_semver.specs.SemverMerged.{versioned, semver_merge};
ghost use Rattle.wit_semver.specs.steps.Replacing.{AreReplacements, IsNewestTable, replacement, told};
ghost use Rattle.wit_semver.specs.steps.Parts.{is_below};

use crate::newest::newest_by_track;
use crate::notes::note;
use crate::tracks::{TrackKey, VersionedInterface, versioned};
use indexmap::IndexMap;
use std::alloc::{AllocError, Global};
use wit_data::{InterfaceId, Table, TrackRule, World, WorldKey};
use wit_graph_data::Graph;

/// Of each import of a world that is replaced the interface that replaces it: the greatest on its track, where it is
/// imported under its own key and isn't the greatest itself.
pub(crate) fn replacements(
    alloc: Global,
    graph: &Graph,
    world: &World,
    rule: TrackRule,
) -> Result<Table<InterfaceId, InterfaceId>, AllocError>
    requires { IsValid graph.now }
    ensures { IfOk result (λ found. AreReplacements (semver_merge rule graph.now world.now) found) }
{
    let newest = newest_by_track(alloc, graph, rule, &world.imports)?;
    let mut found = Table::new(alloc);
    for (key, _) in world.imports.iter() {
        match key {
            WorldKey::Interface(id) => {
                let by = replacement(alloc, graph, rule, &newest, *id)?;
                note(&mut found, id, by)?;
            }
            WorldKey::Name(_) => {}
        }
    }
    Ok(found)
}

/// What replaces an import: the newest on its track, where that is of a greater version.
fn replacement(
    alloc: Global,
    graph: &Graph,
    rule: TrackRule,
    newest: &IndexMap<TrackKey, InterfaceId>,
    id: InterfaceId,
) -> Result<Option<InterfaceId>, AllocError>
    requires valid { IsValid graph.now }
    ensures { IfOk result (λ by.
        (world : World)
        → IsNewestTable rule graph.now (keyed_interfaces world.imports) newest.now.entries
        → Contains (keyed_interfaces world.imports) id
        → by ≡ replacement (semver_merge rule graph.now world) id) }
{
    let Some(interface) = versioned(graph, id) else {
        return Ok(None);
    };
    let key = interface.track_key(alloc, rule)?;
    let Some(other) = newest.get(&key) else {
        return Ok(None);
    };
    if is_greater(graph, *other, &interface) {
        return Ok(Some(*other));
    }
    Ok(None)
}

/// Whether an interface is of a greater version than another.
fn is_greater(graph: &Graph, id: InterfaceId, interface: &VersionedInterface<'_>) -> bool
    ensures { result
        ≡ option_map_or (is_below (told interface.now)) (versioned graph.now id) false }
{
    match versioned(graph, id) {
        Some(other) => interface.is_below(&other),
        None => false,
    }
}
