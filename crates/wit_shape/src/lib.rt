//! The shape of unresolved packages, which every reader of WIT brings and every call that resolves them asks for:
//! whether a package has it, and else the first clause of it that the package breaks, and the first thing that does.
//!
//! What the shape is stands in `wit_data` (`specs/Shape`). Each clause has a search of its own for the first thing of
//! which it doesn't hold, called by the clause's name: `owners::listed` looks for what breaks `owners.listed`. Where a
//! graph keeps the clause too, another call tells by that search whether its lists do.
#![tactic(auto)]

mod clause;
mod fault;
mod foreign;
mod group;
pub mod keys;
pub mod named_owners;
pub mod names;
pub mod own;
pub mod owners;
mod place;
pub mod references;
mod search;
pub mod unknown;
mod unplaced;
pub mod uses;
pub mod worlds;

pub use crate::clause::ShapeClause;
pub use crate::fault::ShapeFault;
pub use crate::group::is_group_shaped;
pub use crate::place::ShapePlace;
pub use crate::search::{find_shape_fault, is_shaped};
