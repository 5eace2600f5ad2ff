//! What a program does beside its work: it asks its arguments for `--help` and `--version`, reads all bytes, writes a text,
//! and ends with a status. Reading and writing work on any reader or writer, within a [`Watched`], which records whether one of
//! its calls failed.
#![tactic(auto)]

mod asked;
mod fault;
mod status;
mod stream;
mod watched;

pub use crate::asked::Asked;
pub use crate::fault::StreamFault;
pub use crate::status::exit_status;
pub use crate::stream::{read_all, write_all};
pub use crate::watched::Watched;
