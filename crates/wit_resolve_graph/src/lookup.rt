//! Things of a `Resolve` by their ids.
ghost use Rattle.std.specs.Prelude.{◌≡◌, ◌<◌, Some, length, slice_get};

use crate::Resolve;
use wit_data::{Interface, InterfaceId, PackageId, TypeDef, TypeId, World, WorldId};
use wit_graph_data::Package;

impl Resolve {
    /// The type of an id, which is one of this graph's.
    ///
    /// Source: `types[id]` of a `Resolve` of wit-parser 0.263.0.
    pub fn ty(&self, id: TypeId) -> &TypeDef
        requires { id < length self.now.graph.types }
        ensures { slice_get self.now.graph.types id ≡ Some result.now }
    {
        &self.types()[id.index()]
    }

    /// The interface of an id, which is one of this graph's.
    ///
    /// Source: `interfaces[id]` of a `Resolve` of wit-parser 0.263.0.
    pub fn interface(&self, id: InterfaceId) -> &Interface
        requires { id < length self.now.graph.interfaces }
        ensures { slice_get self.now.graph.interfaces id ≡ Some result.now }
    {
        &self.interfaces()[id.index()]
    }

    /// The world of an id, which is one of this graph's.
    ///
    /// Source: `worlds[id]` of a `Resolve` of wit-parser 0.263.0.
    pub fn world(&self, id: WorldId) -> &World
        requires { id < length self.now.graph.worlds }
        ensures { slice_get self.now.graph.worlds id ≡ Some result.now }
    {
        &self.worlds()[id.index()]
    }

    /// The package of an id, which is one of this graph's.
    ///
    /// Source: `packages[id]` of a `Resolve` of wit-parser 0.263.0.
    pub fn package(&self, id: PackageId) -> &Package
        requires { id < length self.now.graph.packages }
        ensures { slice_get self.now.graph.packages id ≡ Some result.now }
    {
        &self.packages()[id.index()]
    }
}
