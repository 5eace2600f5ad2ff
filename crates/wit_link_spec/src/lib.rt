//! What adding a package makes of a graph, and why it is refused: definitions, and laws: a valid graph to which a package
//! is added stays valid, and a partially linked graph into which a world is included stays partially linked. Of code there
//! is what the steps of an addition hand on to each other, which notes let their items be active, and what goes to new ids.
#![tactic(auto)]

mod addition;
mod gates;
pub mod laws;
mod messages;
mod new_things;

pub use crate::addition::{Activity, AdditionRef, NewIds, Values};
pub use crate::gates::is_active;
pub use crate::messages::{excluded_message, excluded_owner_message};
pub use crate::new_things::{is_from, is_new, next_new_id};
