//! What an arrow of a picture is.
use wit_resolve_graph::{InterfaceId, PackageId, WorldId};

/// What an arrow from an interface or a world says of what it leads to.
#[derive(Clone, Copy)]
pub enum ArrowKind {
    /// The interface uses it.
    Used,
    /// A line lists the import, or includes the world.
    Listed,
    /// Elaboration has added the import.
    Added,
    /// The world exports it.
    Exported,
}

/// What an arrow leads to.
#[derive(Clone, Copy)]
pub enum Target {
    Interface(InterfaceId),
    /// All interfaces that the frame of a package shows; of imports, all but those that the world exports.
    Frame(PackageId),
    /// All that a world imports.
    World(WorldId),
}

/// An arrow from an interface or a world.
#[derive(Clone, Copy)]
pub struct Arrow {
    pub kind: ArrowKind,
    pub target: Target,
}
