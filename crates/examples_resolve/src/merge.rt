//! Examples of what merging two graphs and semver merging mean.

pub mod merged_graphs;
pub mod names;
pub mod refusals;
pub mod semver_causes;
pub mod semver_merges;
