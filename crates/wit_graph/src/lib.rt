//! The graph of WIT packages: five lists of plain data in which each name has become a typed number, its errors with
//! their numbers and texts, canonical worlds, and what is asked of a graph.
//!
//! [`Graph`] has public fields; its own methods `id_of`, `id_of_name` and `name_world_key` give id texts, `interface_in` and
//! `world_in` find what a package has under a name, [`queries`] has the other questions as functions, and
//! [`GraphQueries`] has them as methods. [`elaborate`] makes a world canonical, where [`is_elaborable`] is true, [`rows`]
//! has what interfaces reach and makes all worlds canonical, where [`are_uses_acyclic`] is. [`is_valid`] tells whether a
//! graph is valid, as the graph of each `Resolve` is, and [`find_graph_fault`] why it isn't; [`laws`] has laws of worlds and
//! graphs. A [`ResolveError`] has a number and fields of its kind, and renders itself with its line of the sources.
//!
//! ```text
//! use wit_graph::{Graph, GraphQueries, ResolveResult};
//! use wit_items::PackageId;
//!
//! fn packages_in_order(alloc: Global, graph: &Graph) -> ResolveResult<Vec<PackageId>> {
//!     graph.topological_packages(alloc)
//! }
//! ```
#![tactic(auto)]

mod graph_queries;
pub mod laws;

pub use crate::graph_queries::GraphQueries;
pub use wit_core_names::{
    FutureIntrinsic, ResourceIntrinsic, StreamIntrinsic, WasmExport, WasmExportKind, WasmImport,
    can_name_export, can_name_import, wasm_export_name, wasm_import_name,
};
pub use wit_elaboration::{elaborate, is_elaborable, rows};
pub use wit_graph_data::{
    Cause, Features, Graph, Package, ResolveError, ResolveErrorKind, ResolveResult,
};
pub use wit_graph_faults::{GraphClause, GraphFault, GraphPlace, find_graph_fault};
pub use wit_queries as queries;
pub use wit_queries::canonical::version_suffix_of;
pub use wit_queries::entries::{external_id_value, implements_interface};
pub use wit_queries::interface_deps::{InterfaceDirectDeps, are_uses_acyclic};
pub use wit_queries::package_deps::PackageDirectDeps;
pub use wit_queries::selection::select_world;
pub use wit_validity::is_valid;
pub use wit_values::NameSet;
