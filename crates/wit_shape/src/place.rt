//! Places in an unresolved package, by the names of its fields.
ghost use Rattle.std.specs.Prelude.{Some};
ghost use Rattle.wit_shape.specs.FaultText.{place_text};

use std::fmt;
use wit_data::{InterfaceId, TypeId, WorldId};

/// A place in an unresolved package: a field of it, a thing in one of its lists, or the entry at an index of a list of
/// such a thing.
#[derive(Clone, Copy, Debug, PartialEq, Eq)]
pub enum ShapePlace {
    /// The name of the package.
    Name,
    /// The spans of the other packages.
    ForeignDepSpans,
    /// The spans of the types of kind `Unknown`.
    UnknownTypeSpans,
    /// A type that has to be a resource.
    RequiredResource(usize),
    /// An interface or a world that is named of another package: the index of the package, and its own there.
    ForeignItem(usize, usize),
    Interface(InterfaceId),
    World(WorldId),
    Type_(TypeId),
    /// A type that an interface lists.
    InterfaceType(InterfaceId, usize),
    /// A function of an interface.
    Function(InterfaceId, usize),
    /// An import of a world.
    Import(WorldId, usize),
    /// An export of a world.
    Export(WorldId, usize),
    /// An include of a world.
    Include(WorldId, usize),
}

/// The path to it, as `interfaces[1].functions[0]`.
impl fmt::Display for ShapePlace {
    ghost output = { λ p. Some (place_text p) };

    fn fmt<W: fmt::Write>(&self, f: &mut fmt::Formatter<W>) -> fmt::Result {
        match self {
            ShapePlace::Name => write!(f, "name"),
            ShapePlace::ForeignDepSpans => write!(f, "foreign_dep_spans"),
            ShapePlace::UnknownTypeSpans => write!(f, "unknown_type_spans"),
            ShapePlace::RequiredResource(index) => write!(f, "required_resource_types[{index}]"),
            ShapePlace::ForeignItem(package, index) => write!(
                f,
                "foreign_deps[{package}][{index}]"
            ),
            ShapePlace::Interface(id) => {
                let id = id.index();
                write!(f, "interfaces[{id}]")
            }
            ShapePlace::World(id) => {
                let id = id.index();
                write!(f, "worlds[{id}]")
            }
            ShapePlace::Type_(id) => {
                let id = id.index();
                write!(f, "types[{id}]")
            }
            ShapePlace::InterfaceType(id, index) => {
                let id = id.index();
                write!(f, "interfaces[{id}].types[{index}]")
            }
            ShapePlace::Function(id, index) => {
                let id = id.index();
                write!(f, "interfaces[{id}].functions[{index}]")
            }
            ShapePlace::Import(id, index) => {
                let id = id.index();
                write!(f, "worlds[{id}].imports[{index}]")
            }
            ShapePlace::Export(id, index) => {
                let id = id.index();
                write!(f, "worlds[{id}].exports[{index}]")
            }
            ShapePlace::Include(id, index) => {
                let id = id.index();
                write!(f, "worlds[{id}].includes[{index}]")
            }
        }
    }
}
