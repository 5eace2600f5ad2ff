//! The data of WIT from JSON: each value reads as what it says, or its first fault is told with the path to it.
#![tactic(auto)]

mod documents;
mod fault;
mod features;
mod functions;
mod gates;
mod graphs;
mod groups;
mod lists;
mod messages;
mod objects;
mod packages;
mod places;
mod reader;
mod stops;
mod syntax;
mod tables;
mod types;
mod values;
mod worlds;

pub use crate::documents::{place_of, read_text};
pub use crate::fault::{Expected, Fault, ReadError, Step, in_item, in_member, instead_of};
pub use crate::gates::{docs, span};
pub use crate::objects::{alone, one_member, pair};
pub use crate::places::FaultPlace;
pub use crate::reader::{ReadJson, list, only, optional, required};
pub use crate::syntax::JsonPart;
