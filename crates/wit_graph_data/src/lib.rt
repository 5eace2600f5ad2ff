//! The graph of WIT packages as plain data, the errors of all that is done with it, and id texts.
#![tactic(auto)]

mod cause;
mod error;
mod error_copies;
mod error_kind;
mod features;
mod graph;
mod id_text;
mod rendering;

pub use crate::cause::Cause;
pub use crate::error::{ResolveError, ResolveResult};
pub use crate::error_kind::ResolveErrorKind;
pub use crate::features::Features;
pub use crate::graph::{Graph, Package};
pub use crate::rendering::render_text;
