//! The greatest version on each track.
ghost use Rattle.std.specs.Prelude.{◌≡◌, ◌++◌, ◌∷◌, [], ℕ, List, IfOk, OnOk};
ghost use Rattle.std.specs.Option.{option_copied};
ghost use Rattle.wit_elaboration.specs.Entries.{keyed_interfaces};
ghost use Rattle.wit_semver.specs.steps.Replacing.{IsNewestTable, is_newer, told};

use crate::tracks::{TrackKey, VersionedInterface, versioned};
use indexmap::IndexMap;
use std::alloc::{AllocError, Global};
use wit_data::{InterfaceId, Table, TrackRule, WorldItem, WorldKey};
use wit_graph_data::Graph;

/// Of each track among some entries under the keys of interfaces, the interface of the greatest version.
pub(crate) fn newest_by_track(
    alloc: Global,
    graph: &Graph,
    rule: TrackRule,
    entries: &Table<WorldKey, WorldItem>,
) -> Result<IndexMap<TrackKey, InterfaceId>, AllocError>
    ensures { IfOk result
        (λ newest. IsNewestTable rule graph.now (keyed_interfaces entries.now) newest.entries) }
{
    let mut newest = IndexMap::new(alloc);
    for (key, _) in entries.iter() {
        match key {
            WorldKey::Interface(id) => note(alloc, graph, rule, &mut newest, *id)?,
            WorldKey::Name(_) => {}
        }
    }
    Ok(newest)
}

/// Notes an interface that is of a greater version than what is known on its track.
fn note(
    alloc: Global,
    graph: &Graph,
    rule: TrackRule,
    newest: &mut IndexMap<TrackKey, InterfaceId>,
    id: InterfaceId,
) -> Result<(), AllocError>
    ensures { OnOk result ((ids : List ℕ) → IsNewestTable rule graph.now ids newest.old.entries
        → IsNewestTable rule graph.now (ids ++ id ∷ []) newest.new.entries) }
{
    if let Some(interface) = versioned(graph, id) {
        let key = interface.track_key(alloc, rule)?;
        if is_newer(graph, newest.get(&key), &interface) {
            newest.insert(key, id)?;
        }
    }
    Ok(())
}

/// Whether an interface is of a greater version than what is known, if anything is.
fn is_newer(graph: &Graph, known: Option<&InterfaceId>, interface: &VersionedInterface<'_>) -> bool
    ensures { result ≡ is_newer graph.now (option_copied known.entry) (told interface.now) }
{
    match known {
        Some(id) => match versioned(graph, *id) {
            Some(other) => other.is_below(interface),
            None => true,
        },
        None => true,
    }
}
