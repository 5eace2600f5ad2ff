//! What is asked of a `Resolve`. Each call hands on to the question of the same name over its graph; the
//! graph is valid, so what a question asks of a graph always holds.
ghost use Rattle.std.specs.Prelude.{◌≡◌, ◌↔◌, ◌<◌, IfErr, IfOk, IfSome, IsTrue, length, string_bytes};
ghost use Rattle.std.specs.Option.{option_map};
ghost use Rattle.wit_data.specs.Uses.{type_interface_dep};
ghost use Rattle.wit_graph_data.specs.Queries.{HasAllBitsValid, canonical_id_text, canonical_interface_id_at, canonical_key_text, external_id_value, futures_and_streams, implements_interface, interface_direct_deps, topological_packages, version_suffix_of, package_direct_deps};
ghost use Rattle.wit_graph_data.specs.declared.error_kind.ResolveErrorKind.TheVariants.{OutOfMemory};
ghost use Rattle.wit_graph_data.specs.Named.{world_named};

use crate::resolve::Resolve;
use std::alloc::Global;
use wit_data::{
    Function, InterfaceId, PackageId, PackageName, Type_, TypeId, WorldId, WorldItem, WorldKey,
    type_interface_dep,
};
use wit_graph_data::ResolveResult;
use wit_queries::canonical::{
    canonicalized_id_of, canonicalized_id_of_name, name_canonicalized_world_key, version_suffix_of,
};
use wit_queries::entries::{external_id_value, implements_interface};
use wit_queries::futures::find_futures_and_streams;
use wit_queries::interface_deps::{InterfaceDirectDeps, interface_direct_deps};
use wit_queries::package_deps::{PackageDirectDeps, package_direct_deps, topological_packages};
use wit_queries::valid_bits::is_valid_by;

/// Names.
impl Resolve {
    /// The world of this name in the package of that name. None if either isn't there. It takes no memory.
    ///
    /// Source: `Resolve::package_names` and `Package::worlds` of wit-parser 0.263.0.
    pub fn world_named(&self, owner: &PackageName, name: &str) -> Option<WorldId>
        ensures id { result ≡ world_named self.now.graph owner.now name.now }
        ensures within { IfSome result (λ w. w < length self.now.graph.worlds) }
    {
        let graph = self.graph();
        let package = graph.package_names.get(owner)?;
        graph.world_in(*package, name)
    }
}

/// Dependencies.
impl Resolve {
    /// The interface that an alias uses: the one that owns the alias's type, if it isn't the alias's own owner. None of
    /// any other type. It takes no memory.
    ///
    /// Source: `type_interface_dep` of wit-parser 0.263.0.
    pub fn type_interface_dep(&self, id: TypeId) -> Option<InterfaceId>
        ensures { result ≡ type_interface_dep self.now.graph.types id }
    {
        type_interface_dep(self.types(), id)
    }

    /// The interfaces that an interface of this graph uses directly, in the order of its types, with
    /// repeats. It takes no memory.
    ///
    /// Source: `interface_direct_deps` of wit-parser 0.263.0.
    pub fn interface_direct_deps(&self, id: InterfaceId) -> InterfaceDirectDeps<'_>
        requires { id < length self.now.graph.interfaces }
        ensures { result ≡ interface_direct_deps self.now.graph.types self.now.graph.interfaces id }
    {
        interface_direct_deps(self.graph(), id)
    }

    /// The packages that a package of this graph depends on directly, other than itself, with repeats:
    /// those of what the interfaces of its table use, and then those of what its worlds name, imports
    /// before exports. It takes no memory.
    ///
    /// Source: `package_direct_deps` of wit-parser 0.263.0.
    pub fn package_direct_deps(&self, id: PackageId) -> PackageDirectDeps<'_>
        requires { id < length self.now.graph.packages }
        ensures { result
            ≡ package_direct_deps self.now.graph.types self.now.graph.interfaces
            self.now.graph.worlds self.now.graph.packages id }
    {
        package_direct_deps(self.graph(), id)
    }

    /// All packages, each once and after those that it depends on, else in the order of their ids. The only refusal is
    /// want of memory (28).
    ///
    /// Source: `topological_packages` of wit-parser 0.263.0.
    pub fn topological_packages(&self, alloc: Global) -> ResolveResult<Vec<PackageId>>
        ensures order { IfOk result (λ order.
            order.items
            ≡ topological_packages self.now.graph.types self.now.graph.interfaces
            self.now.graph.worlds self.now.graph.packages) }
        ensures memory { IfErr result (λ kind. kind ≡ OutOfMemory) }
    {
        topological_packages(alloc, self.graph())
    }
}

/// Canonical names, with the text of the track in the place of the version.
impl Resolve {
    /// The canonical id text of an interface. None if it has no name or isn't there. The only refusal is want of memory
    /// (28).
    ///
    /// Source: `canonicalized_id_of` of wit-parser 0.263.0.
    pub fn canonicalized_id_of(
        &self,
        alloc: Global,
        id: InterfaceId,
    ) -> ResolveResult<Option<String>>
        ensures text { IfOk result (λ text.
            option_map string_bytes text
            ≡ canonical_interface_id_at self.now.graph.packages self.now.graph.interfaces id) }
        ensures memory { IfErr result (λ kind. kind ≡ OutOfMemory) }
    {
        canonicalized_id_of(alloc, self.graph(), id)
    }

    /// The canonical id text of an interface or a world of this name in a package. Empty if the package isn't there.
    /// The only refusal is want of memory (28).
    ///
    /// Source: `canonicalized_id_of_name` of wit-parser 0.263.0.
    pub fn canonicalized_id_of_name(
        &self,
        alloc: Global,
        package: PackageId,
        name: &str,
    ) -> ResolveResult<String>
        ensures text { IfOk result (λ text.
            string_bytes text ≡ canonical_id_text self.now.graph.packages «package» name.now) }
        ensures memory { IfErr result (λ kind. kind ≡ OutOfMemory) }
    {
        canonicalized_id_of_name(alloc, self.graph(), package, name)
    }

    /// The name of a world's key: a label as it stands, or the canonical id text of an interface, which is empty if the
    /// interface has none. The only refusal is want of memory (28).
    ///
    /// Source: `name_canonicalized_world_key` of wit-parser 0.263.0.
    pub fn name_canonicalized_world_key(
        &self,
        alloc: Global,
        key: &WorldKey,
    ) -> ResolveResult<String>
        ensures text { IfOk result (λ text.
            string_bytes text
            ≡ canonical_key_text self.now.graph.packages self.now.graph.interfaces key.now) }
        ensures memory { IfErr result (λ kind. kind ≡ OutOfMemory) }
    {
        name_canonicalized_world_key(alloc, self.graph(), key)
    }

    /// The part of the package's version that the canonical id text of an interface leaves out. None if there is no
    /// version, if nothing is left out, and if the interface isn't there. The only refusal is want of memory (28).
    ///
    /// Source: `version_suffix_of` of wit-parser 0.263.0.
    pub fn version_suffix_of(&self, alloc: Global, id: InterfaceId) -> ResolveResult<Option<String>>
        ensures text { IfOk result (λ text.
            option_map string_bytes text
            ≡ version_suffix_of self.now.graph.packages self.now.graph.interfaces id) }
        ensures memory { IfErr result (λ kind. kind ≡ OutOfMemory) }
    {
        version_suffix_of(alloc, self.graph(), id)
    }
}

/// Entries of worlds.
impl Resolve {
    /// The named interface that stands under a label. None of any other entry. It takes no memory.
    ///
    /// Source: `implements_interface` of wit-parser 0.263.0.
    pub fn implements_interface(&self, key: &WorldKey, item: &WorldItem) -> Option<InterfaceId>
        ensures { result ≡ implements_interface self.now.graph.interfaces key.now item.now }
    {
        implements_interface(self.graph(), key, item)
    }

    /// The external id of an entry: its own, or that of its function or type. None if it has none. The only refusal is
    /// want of memory (28).
    ///
    /// Source: `external_id_value` of wit-parser 0.263.0.
    pub fn external_id_value(
        &self,
        alloc: Global,
        item: &WorldItem,
    ) -> ResolveResult<Option<String>>
        ensures text { IfOk result (λ text.
            option_map string_bytes text ≡ external_id_value self.now.graph.types item.now) }
        ensures memory { IfErr result (λ kind. kind ≡ OutOfMemory) }
    {
        external_id_value(alloc, self.graph(), item)
    }
}

/// Values.
impl Resolve {
    /// Whether all bits are valid values of a type: of a number, a handle, and an alias, a fixed-length list, a record
    /// or a tuple of such types alone. It takes no memory.
    ///
    /// Source: `all_bits_valid` of wit-parser 0.263.0.
    pub fn all_bits_valid(&self, ty: Type_) -> bool
        ensures { IsTrue result ↔ HasAllBitsValid self.now.graph.types ty }
    {
        is_valid_by(self.valid_bits(), ty)
    }

    /// The futures and streams that the values of a function's parameters and of its result hold: see
    /// `GraphQueries` of `wit_graph`. The only refusal is want of memory (28).
    ///
    /// Source: `find_futures_and_streams` of wit-parser 0.263.0.
    pub fn find_futures_and_streams(
        &self,
        alloc: Global,
        function: &Function,
    ) -> ResolveResult<Vec<TypeId>>
        ensures found { IfOk result
            (λ found. found.items ≡ futures_and_streams self.now.graph.types function.now) }
        ensures memory { IfErr result (λ kind. kind ≡ OutOfMemory) }
    {
        find_futures_and_streams(alloc, self.graph(), function)
    }
}
