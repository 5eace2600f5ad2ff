//! What a JSON document asks of a graph: changes, graphs of their own that are merged into it, and questions. Each is read
//! from a JSON value, or its first fault is told with the path to it.

mod changes;
mod orders;
mod questions;

pub use orders::{Document, Order, Request};
pub use questions::{FunctionPlace, FunctionSite, Mangling, Question};
