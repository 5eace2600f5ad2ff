//! Imports of a world that are merged by tracks: of the versions of an interface that can stand for each
//! other, the greatest is left.
#![tactic(auto)]

mod agreement;
mod kept_imports;
pub mod laws;
mod merging;
mod new_entries;
mod newest;
mod notes;
mod refusal;
mod replaced;
mod semver_merge_plan;
mod targets;
mod tracks;

pub use crate::merging::{
    SemverChange, find_semver_merge, graph_with_new_entries, merge_by_track, place_imports,
};
