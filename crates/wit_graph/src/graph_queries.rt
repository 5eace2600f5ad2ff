//! What is asked of a graph, as methods.
ghost use Rattle.std.specs.Prelude.{◌≡◌, ◌<◌, IfErr, IfOk, length, string_bytes};
ghost use Rattle.std.specs.Option.{option_map};
ghost use Rattle.wit_data.specs.Kind.{type_references};
ghost use Rattle.wit_data.specs.Uses.{type_interface_dep};
ghost use Rattle.wit_digraph.specs.Relation.{IsAcyclic};
ghost use Rattle.wit_graph_data.specs.Queries.{canonical_id_text, canonical_interface_id_at, canonical_key_text, futures_and_streams, interface_direct_deps, topological_packages, package_direct_deps, package_uses};
ghost use Rattle.wit_graph_data.specs.declared.error_kind.ResolveErrorKind.TheVariants.{OutOfMemory};
ghost use Rattle.wit_graph_data.specs.declared.graph.Graph.{Graph};

use std::alloc::Global;
use wit_data::{Function, InterfaceId, PackageId, TypeId, WorldKey};
use wit_graph_data::{Graph, ResolveResult};
use wit_queries::interface_deps::InterfaceDirectDeps;
use wit_queries::package_deps::PackageDirectDeps;
use wit_queries::{canonical, futures, interface_deps, package_deps};

/// What is asked of a graph whose ids are in range, whose interfaces are of packages that are there, and in which
/// nothing depends on itself, as in a valid one. All ids are the graph's.
pub trait GraphQueries {
    ghost graph: { Self → Graph };

    /// Of an alias of a type that an interface owns, which isn't the alias's own owner, that interface; else None. It
    /// takes no memory.
    ///
    /// Source: `type_interface_dep` of wit-parser 0.263.0.
    fn type_interface_dep(&self, id: TypeId) -> Option<InterfaceId>
        ensures { result ≡ type_interface_dep (graph self.now).types id };

    /// The interfaces that an interface uses directly, in the order of its types, with repeats. It takes no memory.
    ///
    /// Source: `interface_direct_deps` of wit-parser 0.263.0.
    fn interface_direct_deps(&self, id: InterfaceId) -> InterfaceDirectDeps<'_>
        requires { id < length (graph self.now).interfaces }
        ensures { result
            ≡ interface_direct_deps (graph self.now).types (graph self.now).interfaces id };

    /// The packages that a package depends on directly, other than itself, with repeats: those of what the interfaces
    /// of its table use, and then those of what its worlds name, imports before exports. It takes no memory.
    ///
    /// Source: `package_direct_deps` of wit-parser 0.263.0.
    fn package_direct_deps(&self, id: PackageId) -> PackageDirectDeps<'_>
        requires { id < length (graph self.now).packages }
        ensures { result
            ≡ package_direct_deps (graph self.now).types (graph self.now).interfaces
            (graph self.now).worlds (graph self.now).packages id };

    /// All packages by their ids, but each after those that it depends on, in order, and each once. The only refusal is
    /// want of memory (28).
    ///
    /// Source: `topological_packages` of wit-parser 0.263.0.
    fn topological_packages(&self, alloc: Global) -> ResolveResult<Vec<PackageId>>
        requires { IsAcyclic (package_uses (graph self.now).types (graph self.now).interfaces
            (graph self.now).worlds (graph self.now).packages) }
        ensures order { IfOk result (λ order.
            order.items
            ≡ topological_packages (graph self.now).types (graph self.now).interfaces
            (graph self.now).worlds (graph self.now).packages) }
        ensures memory { IfErr result (λ kind. kind ≡ OutOfMemory) };

    /// The id text of an interface with the text of the track in the place of the version, None where it has no name or
    /// isn't there. The only refusal is want of memory (28).
    ///
    /// Source: `canonicalized_id_of` of wit-parser 0.263.0.
    fn canonicalized_id_of(&self, alloc: Global, id: InterfaceId) -> ResolveResult<Option<String>>
        ensures text { IfOk result (λ text.
            option_map string_bytes text
            ≡ canonical_interface_id_at (graph self.now).packages (graph self.now).interfaces
            id) }
        ensures memory { IfErr result (λ kind. kind ≡ OutOfMemory) };

    /// The same of an interface or a world of this name in a package, empty where the package isn't there. The only
    /// refusal is want of memory (28).
    ///
    /// Source: `canonicalized_id_of_name` of wit-parser 0.263.0.
    fn canonicalized_id_of_name(
        &self,
        alloc: Global,
        package: PackageId,
        name: &str,
    ) -> ResolveResult<String>
        ensures text { IfOk result (λ text.
            string_bytes text
            ≡ canonical_id_text (graph self.now).packages «package» name.now) }
        ensures memory { IfErr result (λ kind. kind ≡ OutOfMemory) };

    /// What names a key of a world: a label as it stands, an interface by its canonical id text, which is empty where
    /// it has none. The only refusal is want of memory (28).
    ///
    /// Source: `name_canonicalized_world_key` of wit-parser 0.263.0.
    fn name_canonicalized_world_key(&self, alloc: Global, key: &WorldKey) -> ResolveResult<String>
        ensures text { IfOk result (λ text.
            string_bytes text
            ≡ canonical_key_text (graph self.now).packages (graph self.now).interfaces
            key.now) }
        ensures memory { IfErr result (λ kind. kind ≡ OutOfMemory) };

    /// The futures and streams that the values of a function's parameters and of its result hold, of the parameters in
    /// order, then of the result, inner ones before outer ones, with repeats; not through handles and resources. The
    /// only refusal is want of memory (28).
    ///
    /// Source: `find_futures_and_streams` of wit-parser 0.263.0.
    fn find_futures_and_streams(
        &self,
        alloc: Global,
        function: &Function,
    ) -> ResolveResult<Vec<TypeId>>
        requires { IsAcyclic (type_references (graph self.now).types) }
        ensures found { IfOk result
            (λ found. found.items ≡ futures_and_streams (graph self.now).types function.now) }
        ensures memory { IfErr result (λ kind. kind ≡ OutOfMemory) };
}

impl GraphQueries for Graph {
    ghost graph = { λ g. g };

    fn type_interface_dep(&self, id: TypeId) -> Option<InterfaceId> {
        wit_data::type_interface_dep(self.types.as_slice(), id)
    }

    fn interface_direct_deps(&self, id: InterfaceId) -> InterfaceDirectDeps<'_> {
        interface_deps::interface_direct_deps(self, id)
    }

    fn package_direct_deps(&self, id: PackageId) -> PackageDirectDeps<'_> {
        package_deps::package_direct_deps(self, id)
    }

    fn topological_packages(&self, alloc: Global) -> ResolveResult<Vec<PackageId>> {
        package_deps::topological_packages(alloc, self)
    }

    fn canonicalized_id_of(&self, alloc: Global, id: InterfaceId) -> ResolveResult<Option<String>> {
        canonical::canonicalized_id_of(alloc, self, id)
    }

    fn canonicalized_id_of_name(
        &self,
        alloc: Global,
        package: PackageId,
        name: &str,
    ) -> ResolveResult<String> {
        canonical::canonicalized_id_of_name(alloc, self, package, name)
    }

    fn name_canonicalized_world_key(&self, alloc: Global, key: &WorldKey) -> ResolveResult<String> {
        canonical::name_canonicalized_world_key(alloc, self, key)
    }

    fn find_futures_and_streams(
        &self,
        alloc: Global,
        function: &Function,
    ) -> ResolveResult<Vec<TypeId>> {
        futures::find_futures_and_streams(alloc, self, function)
    }
}
