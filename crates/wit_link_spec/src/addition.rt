//! A package on its way into a graph.
use wit_data::{InterfaceId, Items, TypeDef, TypeId, UnresolvedPackage, WorldId};
use wit_graph_data::{Features, Graph};

/// A package that comes in, and what it is added to.
#[derive(Clone, Copy)]
pub struct AdditionRef<'a> {
    pub graph: &'a Graph,
    /// Which features are on.
    pub features: &'a Features,
    pub unresolved: &'a UnresolvedPackage,
    /// How far the spans of the package move.
    pub offset: u32,
}

/// What is active of a package: a flag for each of its types, interfaces and worlds.
#[derive(Drop)]
pub struct Activity {
    pub types: Items<bool>,
    pub interfaces: Items<bool>,
    pub worlds: Items<bool>,
}

/// Where the types, interfaces and worlds of a package go in the graph: an id for each, None for what takes no
/// part and for what isn't found.
#[derive(Drop)]
pub struct NewIds {
    pub types: Items<Option<TypeId>>,
    pub interfaces: Items<Option<InterfaceId>>,
    pub worlds: Items<Option<WorldId>>,
}

/// Where the types of a package go at value positions, an id for each, and the `own`s that come for that.
#[derive(Drop)]
pub struct Values {
    pub new_ids: Items<TypeId>,
    pub owns: Items<TypeDef>,
}
