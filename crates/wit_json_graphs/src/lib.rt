//! The parts of a `Resolve` from JSON: a graph in the layout that `wit_json` writes, and what stands beside it. A document
//! that comes out may so begin the next one. [`laws`] has that what is written reads back.
#![tactic(auto)]

mod details;
pub mod laws;
mod resolves;
mod things;

pub use crate::details::ReadDetails;
pub use crate::resolves::ResolveParts;
