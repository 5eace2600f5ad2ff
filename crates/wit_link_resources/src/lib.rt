//! Resources of what comes into a graph: which types lead to one and which values become an `own`; and of a package
//! that is added which types have to be one, and which results hold a borrow.
#![tactic(auto)]

mod adding;
mod asked;
mod borrows;
mod functions;
mod incoming;
mod leading;
mod met;
mod owning;
mod refusal;
mod required;
mod results;

pub use crate::adding::values;
pub use crate::borrows::holds_borrow;
pub use crate::incoming::Incoming;
pub use crate::owning::remapped_values;
pub use crate::required::check_resources;
pub use crate::results::{check_results, result_type};
