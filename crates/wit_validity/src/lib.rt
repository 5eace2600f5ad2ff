//! Whether a graph is valid, told of any graph whatever.
#![tactic(auto)]

pub mod canonical;
mod cycles;
mod named;
mod own;
pub mod package_names;
mod same;
pub mod tables;
mod valid;
pub mod world_homes;

pub use crate::valid::is_valid;
