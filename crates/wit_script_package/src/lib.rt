//! Packages as the lines of a script make them, one line after another.
#![tactic(auto)]

mod adding;
mod draft;
mod foreign;
mod lines;
mod making;
mod mention;
mod naming;
mod pushable;
mod role;

pub use crate::draft::{Draft, Foreign, LineContext, Scope, span_of};
pub use crate::mention::{Mention, MentionKind, mention_of, mentions_nothing};
pub use crate::pushable::is_pushable;
