//! The lines of a script for a resolve graph: their tokens, and what each of them says.
#![tactic(auto)]

mod fault;
mod gate;
mod line;
mod package_line;
mod request;
mod signature;
mod statement;
mod token;
mod type_text;

pub use crate::fault::LineFault;
pub use crate::line::{content_range, is_comment, lines, tokens};
pub use crate::package_line::PackageLine;
pub use crate::request::Request;
pub use crate::signature::{Signature, TypedName};
pub use crate::statement::{Statement, read_line};
pub use crate::token::{after_prefix, primitive};
pub use crate::type_text::{TypeText, Wrap, Written};
pub use wit_data::TrackRule;
