//! What makes one graph of two and one world of another: merging graphs, transforming worlds, semver merging.
//!
//! - [`unite`] merges a graph into another: what both have under one name is made one, all else moves. `merge` is the
//!   same call. [`Remap`] tells where each thing went.
//! - [`importize`] makes the exports of a world its imports, [`exportize`] its imports exports, of which a filter may
//!   choose some.
//! - [`merge_by_track`] leaves of the imports of a world the newest version on each track, as SemVer groups them.
//!
//! Each asks for a valid graph, gives a valid one, and is refused exactly where a written cause holds; then the graph
//! is as before.
#![tactic(auto)]

pub mod laws;

pub use wit_merge::{merge, merge as unite};
pub use wit_remap::Remap;
pub use wit_semver::merge_by_track;
pub use wit_transform::{exportize, importize};
