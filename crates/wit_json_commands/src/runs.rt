//! Documents carried out: their commands in order, on the graph with which they begin.

mod changes;
mod documents;
mod graph_faults;
mod long_answers;
mod orders;
mod shapes;
mod targets;

pub use documents::{execute, fault_text, respond};
pub use graph_faults::no_valid_graph;
pub use long_answers::without_long_answers;
pub use orders::responses_to;
