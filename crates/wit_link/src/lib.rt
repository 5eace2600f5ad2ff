//! Linking: an unresolved package is added to a graph, with all its names looked up.
//!
//! [`append`] adds one package at the ends of a valid graph: what its gates leave in gets the next ids, what it names of
//! other packages is found there, its worlds take in what they include and are made canonical. A refusal leaves the
//! graph as it was. [`sort_groups`] puts packages into an order in which each can be added, [`append_all`] adds several
//! of them all or none. Who keeps [`GraphCaches`] beside a graph adds by [`append_with`] and [`append_all_with`], which cost
//! what is added. A [`Remap`] tells under which ids the things of a package or of another graph are now, and
//! [`rename`] is how an `include` renames a label.
//!
//! ```text
//! use wit_graph::{Features, Graph, ResolveResult};
//! use wit_items::{PackageId, UnresolvedPackage};
//! use wit_link::append;
//!
//! fn add(alloc: Global, graph: &mut Graph, package: UnresolvedPackage) -> ResolveResult<PackageId> {
//!     append(alloc, graph, &Features::new(alloc), package, 0)
//! }
//! ```
//!
//! The graph has to be valid (`is_valid` of `wit_graph` tells) and the package has to have its shape
//! (`Shape::is_shaped` of `wit_items` tells).
#![tactic(auto)]

mod adding;
mod caches;
mod checking;
mod depends;
mod fits;
mod including;
mod labels;
pub mod laws;
mod name_order;
mod refusal;
mod several;
mod sort;

pub use crate::adding::{append, append_with};
pub use crate::caches::{CachesMark, GraphCaches};
pub use crate::labels::rename;
pub use crate::several::{append_all, append_all_with};
pub use crate::sort::sort_groups;
pub use wit_elaboration::Elaborator;
pub use wit_remap::Remap;
