//! Places in a graph.
ghost use Rattle.std.specs.Prelude.{Some};
ghost use Rattle.wit_graph_faults.specs.FaultText.{graph_place_text};

use std::fmt;
use wit_data::{InterfaceId, PackageId, TypeId, WorldId};

/// A place in a graph: a thing, or the entry at an index of a list of it.
#[derive(Clone, Copy, Debug, PartialEq, Eq)]
pub enum GraphPlace {
    /// An entry of the names of packages.
    PackageName(usize),
    Package(PackageId),
    /// An entry of the table of interfaces of a package.
    PackageInterface(PackageId, usize),
    /// An entry of the table of worlds of a package.
    PackageWorld(PackageId, usize),
    Interface(InterfaceId),
    World(WorldId),
    Type_(TypeId),
    /// A type that an interface lists.
    InterfaceType(InterfaceId, usize),
    /// A function of an interface.
    Function(InterfaceId, usize),
    /// An import of a world.
    Import(WorldId, usize),
    /// An export of a world.
    Export(WorldId, usize),
}

/// In words, as `import 0 of world 2`.
impl fmt::Display for GraphPlace {
    ghost output = { λ p. Some (graph_place_text p) };

    fn fmt<W: fmt::Write>(&self, f: &mut fmt::Formatter<W>) -> fmt::Result {
        match self {
            GraphPlace::PackageName(index) => write!(
                f,
                "entry {index} among the names of packages"
            ),
            GraphPlace::Package(id) => {
                let id = id.index();
                write!(f, "package {id}")
            }
            GraphPlace::PackageInterface(id, index) => {
                let id = id.index();
                write!(f, "entry {index} among the interfaces of package {id}")
            }
            GraphPlace::PackageWorld(id, index) => {
                let id = id.index();
                write!(f, "entry {index} among the worlds of package {id}")
            }
            GraphPlace::Interface(id) => {
                let id = id.index();
                write!(f, "interface {id}")
            }
            GraphPlace::World(id) => {
                let id = id.index();
                write!(f, "world {id}")
            }
            GraphPlace::Type_(id) => {
                let id = id.index();
                write!(f, "type {id}")
            }
            GraphPlace::InterfaceType(id, index) => {
                let id = id.index();
                write!(f, "entry {index} among the types of interface {id}")
            }
            GraphPlace::Function(id, index) => {
                let id = id.index();
                write!(f, "function {index} of interface {id}")
            }
            GraphPlace::Import(id, index) => {
                let id = id.index();
                write!(f, "import {index} of world {id}")
            }
            GraphPlace::Export(id, index) => {
                let id = id.index();
                write!(f, "export {index} of world {id}")
            }
        }
    }
}
