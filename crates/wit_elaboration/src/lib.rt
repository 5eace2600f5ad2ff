//! Worlds made canonical: elaboration adds to a listed world what its imports, type uses and exports need, or
//! refuses it where its exports are in conflict.
#![tactic(auto)]

mod all_worlds;
mod closure;
mod closure_rows;
mod complete;
mod conflict;
mod elaborable;
mod elaboration;
mod entries;
mod exports;
mod imports;
pub mod laws;
mod marks;
mod passes;
mod role;
pub mod rows;

pub use crate::elaborable::is_elaborable;
pub use crate::elaboration::{Elaborator, elaborate};
pub use crate::entries::Lists;
pub use crate::role::item_interface;
