//! WIT text: its tokens, each with the bytes that it takes, and what is no token.
#![tactic(auto)]

mod character;
mod comments;
mod fault;
mod front;
mod keyword;
pub mod laws;
mod place;
mod read_fault;
mod reading;
pub mod syntax;
mod token;
mod tokenizer;

pub use crate::comments::Comments;
pub use crate::fault::{FaultKind, TokenFault, TokensFault};
pub use crate::keyword::Keyword;
pub use crate::read_fault::{Found, ReadFault, ReadFaultKind, Wanted};
pub use crate::reading::read_file;
pub use crate::token::{Sign, Token, TokenKind};
pub use crate::tokenizer::{Tokenizer, tokens};
