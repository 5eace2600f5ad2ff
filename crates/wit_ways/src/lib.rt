//! The ways of refusals: how what a refusal names leads back to itself, or past what isn't exported to what is.
//!
//! [`Asked`] is what a command asks and brings, and [`way_of`] the way of its refusal.
#![tactic(auto)]

mod arrow;
mod asked;
mod coming;
mod conflict;
mod entries;
mod foreign_home;
mod graph_arrow;
mod include;
mod package_arrow;
mod shown;
mod told_way;
mod type_arrow;
mod uses;
mod way;
mod world_name;

pub use crate::arrow::Arrow;
pub use crate::asked::Asked;
pub use crate::coming::Coming;
pub use crate::include::Include;
pub use crate::shown::way_names;
pub use crate::told_way::way_of;
pub use crate::world_name::{WorldName, WorldPlace};
