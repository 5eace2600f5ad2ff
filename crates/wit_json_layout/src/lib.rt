//! The layout of JSON documents: which members their objects have, and a value without all others.
#![tactic(auto)]

mod known;
mod layout;

pub use crate::known::known_part;
pub use crate::layout::Layout;
