//! What comes into a graph, under its new ids: what ids are remapped to, the things moved to the ends of the graph with ids and
//! spans mapped, and whether their spans can be moved.
//!
//! Adding a package and merging two graphs both stand on it.
#![tactic(auto)]

mod fitting;
mod functions;
mod mark;
mod mover;
mod moves;
mod part;
mod parts;
mod remap;
mod tables;
mod types;
mod update;
mod worlds;

pub use crate::fitting::{all_fit, fits, parts_fit};
pub use crate::mark::Mark;
pub use crate::mover::Mover;
pub use crate::moves::Moves;
pub use crate::part::Part;
pub use crate::parts::add_parts;
pub use crate::remap::Remap;
pub use crate::update::Update;
pub use crate::worlds::{UpdatedWorld, updated_entries};
