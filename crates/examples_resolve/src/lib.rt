//! Examples of what graphs, packages, merges, steps and scripts mean, and near misses: the contract of each function is
//! what is proved. They stand beside the crates, so that none waits for them.
#![tactic(auto)]

pub mod graph;
pub mod merge;
pub mod script;
