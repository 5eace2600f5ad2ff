//! Names of packages, the tracks of their versions, kebab names and use paths, as WIT has them.
#![tactic(auto)]

pub mod laws;
mod package_name;
mod track;
mod use_path;

pub use crate::package_name::PackageName;
pub use crate::track::TrackRule;
pub use crate::use_path::{ParsedUsePath, UsePathFault, is_kebab_name, parse_use_path};
