//! Explains a script: where its commands, its packages and what spans name stand, by lines as an editor counts them; why
//! commands are refused, what they don't find, or why the script isn't understood.
//!
//! [`explain_text`] runs a script and tells its refusals; [`explain_command`] runs one command, on the [`Desk`] of the script's
//! graphs. [`script_lines`] knows which lines of a script are commands and which go into the files of packages.
#![tactic(auto)]

mod context;
mod culprit;
mod desk;
pub mod laws;
mod lines;
mod misread;
mod name_reason;
mod outcome;
mod place;
mod reason;
mod refusals;
mod shown;
mod shown_way;
mod word_reason;

pub use crate::desk::{Desk, TrackedGraph};
pub use crate::lines::{CommandPlace, LineSort, ScriptLines, script_lines, sort_of};
pub use crate::outcome::Outcome;
pub use crate::refusals::{explain_command, explain_misread, explain_text, next_place};
