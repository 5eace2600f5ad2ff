//! JSON documents of commands: read, carried out, answered. `docs/JSON.md` has the documents.
//!
//! [`respond`] carries one out, on an empty graph or on the one that it begins with, and answers the document that comes
//! out. [`execute`] does so from a reader to a writer, and [`exit_status`] is what a program answers that does. A
//! [`Document`] is read from a text by `read_text` of `wit_json_reading`, and [`responses_to`] answers its commands.
#![tactic(auto)]

mod commands;
pub mod laws;
mod questions;
mod replies;
mod runs;

pub use crate::commands::{
    Document, FunctionPlace, FunctionSite, Mangling, Order, Question, Request,
};
pub use crate::replies::{
    Answer, CoreExport, CoreImport, CoreNames, FilePlace, Refusal, Response, Unshaped, WayStep,
    nearest_known,
};
pub use crate::runs::{
    execute, fault_text, no_valid_graph, respond, responses_to, without_long_answers,
};
pub use wit_commands::Change;
pub use wit_streams::{Watched, exit_status};
