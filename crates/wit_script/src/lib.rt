//! The script language: lines that build packages, add them to a resolve graph, transform and merge its worlds and print
//! them. `docs/SCRIPT.md` has the language.
//!
//! [`execute`] reads a script to its end and writes the answers of its commands; it answers false where a line isn't
//! understood, which is then all that it writes. It works on any reader and writer, each within a [`Watched`], which
//! records whether one of its calls failed. [`execute_text`] does the same from a text to a text, and [`exit_status`] is
//! what a program answers that executes a script. [`print_world`] gives the text of one world, and [`read_script`] the
//! commands of a script, each a [`Request`]: a `Change` of the graph, or what scripts alone ask.
//!
//! ```text
//! let mut reader = Watched::new(script.as_bytes());
//! let mut writer = Watched::new(io::writer(&rt));
//! let understood = execute(rt.alloc(), &mut reader, &mut writer)?;
//! ```
#![tactic(auto)]

mod ahead;
mod answer;
mod fault;
pub mod laws;
mod printer;
mod reader;
mod ready;
mod script;

pub use crate::answer::Stage;
pub use crate::fault::ReadFault;
pub use crate::printer::print_world;
pub use crate::reader::read_script;
pub use crate::ready::ReadyCommand;
pub use crate::script::{execute, execute_text};
pub use wit_commands::Change;
pub use wit_script_lines::Request;
pub use wit_streams::{StreamFault as ScriptFault, Watched, exit_status, read_all, write_all};
