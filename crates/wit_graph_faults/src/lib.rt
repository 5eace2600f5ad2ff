//! Why a graph isn't valid: the first clause of validity that it breaks, and the first thing that does.
//!
//! What a valid graph is stands in `wit_elaboration` (`specs/Valid`). Each clause has a search of its own for the first
//! thing of which it doesn't hold. A clause that packages are asked for too has that of `wit_shape`.
#![tactic(auto)]

mod clause;
mod cycles;
mod fault;
mod keys;
mod names;
mod place;
mod search;
mod shared;
mod tables;
mod types;
mod worlds;

pub use crate::clause::GraphClause;
pub use crate::fault::GraphFault;
pub use crate::place::GraphPlace;
pub use crate::search::find_graph_fault;
