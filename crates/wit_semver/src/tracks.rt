//! Tracks of interfaces: what is the same for all on one track, and which of two is of a greater version.
ghost use Rattle.std.specs.Prelude.{◌≡◌, IfOk};
ghost use Rattle.std.specs.Option.{option_map};
ghost use Rattle.wit_semver.specs.SemverMerged.{versioned};
ghost use Rattle.wit_semver.specs.steps.Replacing.{key_of, told};
ghost use Rattle.wit_semver.specs.steps.Parts.{is_below};

use std::alloc::{AllocError, Global};
use wit_data::{InterfaceId, PackageName, Text, TrackRule, Version};
use wit_graph_data::Graph;
use wit_values::try_clone_three;

/// What is the same for all interfaces on one track: the name of their package, with the track in the
/// place of the version, and their own name.
#[derive(PartialEq, Eq, Hash, Drop)]
pub(crate) struct TrackKey {
    home: PackageName,
    interface: Text,
}

/// An interface of a package with a version: its name, that of its package, and the version.
#[derive(Drop)]
pub(crate) struct VersionedInterface<'a> {
    name: &'a Text,
    home: &'a PackageName,
    version: &'a Version,
}

/// An interface by its names, where it has a name and is of a package with a version.
pub(crate) fn versioned(graph: &Graph, id: InterfaceId) -> Option<VersionedInterface<'_>>
    ensures { option_map told result ≡ versioned graph.now id }
{
    let interface = graph.interfaces.get(id.index())?;
    let name = interface.name.as_ref()?;
    let home = &graph.packages.get(interface.package?.index())?.name;
    let version = home.version.as_ref()?;
    Some(VersionedInterface {
        name,
        home,
        version,
    })
}

impl<'a> VersionedInterface<'a> {
    /// Whether it is of a smaller version than another.
    pub(crate) fn is_below(&self, other: &VersionedInterface<'_>) -> bool
        ensures { result ≡ is_below (told self.now) (told other.now) }
    {
        self.version < other.version
    }

    /// The key of its track.
    pub(crate) fn track_key(&self, alloc: Global, rule: TrackRule) -> Result<TrackKey, AllocError>
        ensures { IfOk result (λ key. key ≡ key_of rule (told self.now)) }
    {
        let track = PackageName::track_by(alloc, self.version, rule)?;
        let (namespace, name, interface) = try_clone_three(
            &self.home.namespace,
            &self.home.name,
            self.name,
        )?;
        Ok(TrackKey {
            home: PackageName::new(namespace, name, Some(track)),
            interface,
        })
    }
}
