//! Examples of what things are as JSON and of what is answered to documents, and near misses: the contract of each
//! function is what is proved. They stand beside the crates, so that these don't wait for them.
#![tactic(auto)]

pub mod runs;
pub mod values;
