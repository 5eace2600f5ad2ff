//! What is answered to questions about a graph.

mod core_names;
mod dependencies;
mod functions;
mod names;
mod question;
mod selection;

pub use question::answer_question;
