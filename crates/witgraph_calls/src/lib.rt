//! What `witgraph_c` offers to programs in other languages, as functions from bytes to bytes: `execute` writes the answers
//! of a script, `explain` its refusals with their lines or where it isn't understood, `carry_out` what comes out of a JSON
//! document; each answers one of the numbers here. They keep nothing: what they allocate they free, and calls share no state.
//! [`Session`] is a graph that stays.
#![tactic(auto)]

mod documents;
mod execution;
mod explanation;
mod graphs;
pub mod laws;
mod news;
mod output;
mod session;
mod status;

pub use crate::documents::carry_out;
pub use crate::execution::execute;
pub use crate::explanation::explain;
pub use crate::session::Session;
pub use crate::status::{
    CUT_SHORT, INPUT_NOT_UTF8, NO_GRAPH, NO_MEMORY, NOT_UNDERSTOOD, OUTPUT_TOO_SMALL, UNDERSTOOD,
};
