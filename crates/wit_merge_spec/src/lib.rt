//! What merging two graphs makes, and why it is refused: definitions.
#![tactic(auto)]

pub mod laws;
