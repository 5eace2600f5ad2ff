//! Laws of merging.
#![tactic(auto)]

pub mod laws;
