//! Changes of a graph, other than merges of two.
ghost use Rattle.std.specs.Prelude.{◌≡◌, Some};
ghost use Rattle.wit_commands.specs.Change.{change_text, is_setting};

use std::fmt;
use wit_data::{Items, PackageName, Text, TrackRule, UnresolvedPackageGroup};

/// A change of a graph. A world is named by its package's name and its own.
///
/// It holds data alone. The merge of a second graph is none, since that isn't data: see `Command` of `wit_resolve_graph`.
#[derive(Drop)]
pub enum Change {
    /// Turns a feature on.
    AddFeature(Text),
    /// Turns all features on, or leaves those that are named.
    SetAllFeatures(bool),
    /// Sets the rule by which versions stand on one track.
    SetTrackRule(TrackRule),
    /// Adds the packages of groups, dependencies first.
    PushGroups {
        main: UnresolvedPackageGroup,
        deps: Items<UnresolvedPackageGroup>,
    },
    /// Turns the exports of a world into its imports.
    Importize {
        package: PackageName,
        world: Text,
        out: Option<Text>,
    },
    /// Turns imports of a world into its exports, all or those whose keys are listed.
    Exportize {
        package: PackageName,
        world: Text,
        out: Option<Text>,
        keys: Option<Items<Text>>,
    },
    /// Leaves of the imports of a world the greatest version on each track.
    Semver {
        package: PackageName,
        world: Text,
    },
}

impl Change {
    /// Whether it sets what later commands go by, and leaves packages, interfaces, types and worlds as they are.
    pub fn is_setting(&self) -> bool
        ensures { result ≡ is_setting self.now }
    {
        match self {
            Change::AddFeature(_) => true,
            Change::SetAllFeatures(_) => true,
            Change::SetTrackRule(_) => true,
            _ => false,
        }
    }
}

/// The word of a change, and what it is about: of a push the main package of the main group.
impl fmt::Display for Change {
    ghost output = { λ change. Some (change_text change) };

    fn fmt<W: fmt::Write>(&self, f: &mut fmt::Formatter<W>) -> fmt::Result {
        match self {
            Change::AddFeature(name) => write!(f, "add-feature {name}"),
            Change::SetAllFeatures(_) => write!(f, "set-all-features"),
            Change::SetTrackRule(_) => write!(f, "set-track-rule"),
            Change::PushGroups { main, .. } => {
                let name = &main.main.name;
                write!(f, "push-groups {name}")
            }
            Change::Importize { package, world, .. } => write!(f, "importize {package} {world}"),
            Change::Exportize { package, world, .. } => write!(f, "exportize {package} {world}"),
            Change::Semver { package, world } => write!(f, "semver {package} {world}"),
        }
    }
}
