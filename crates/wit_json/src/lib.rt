//! A graph as JSON, in the layout of `wasm-tools component wit --json`, for generators of bindings that read that; and
//! beside it, under keys of its own, what that layout leaves out, refusals, and packages that aren't resolved.
#![tactic(auto)]

mod details;
mod functions;
mod gates;
mod graph;
mod groups;
mod names;
mod news;
mod refusals;
mod types;
mod unresolved;
mod values;
mod whole;
mod worlds;
mod writer;

pub use crate::graph::graph_to_json;
pub use crate::groups::group_to_json;
pub use crate::names::EntryName;
pub use crate::news::{Told, news_to_json};
pub use crate::refusals::refusal_to_json;
pub use crate::unresolved::package_to_json;
pub use crate::whole::whole_to_json;
pub use crate::writer::{JsonText, WriteJson, text_of};
