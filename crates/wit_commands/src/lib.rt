//! What may be asked of a graph of WIT that changes it, as data: scripts, JSON documents and `Resolve` speak of the same
//! [`Change`].
#![tactic(auto)]

mod change;

pub use crate::change::Change;
