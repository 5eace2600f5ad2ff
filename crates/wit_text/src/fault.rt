//! What is wrong with a text, and where.
ghost use Rattle.std.specs.Prelude.{◌≡◌, ◌≤◌, length};
ghost use Rattle.wit_text.specs.Fault.{fault_at, fault_text, placed_text, tokens_fault_text};

use crate::place::{column, line_number};
use std::alloc::AllocFailed;
use std::error::Error;
use std::fmt;

/// Why something is no token, or no character of a text.
#[derive(Clone, Copy, Debug, PartialEq, Eq)]
pub enum FaultKind {
    /// No token begins with this character.
    Unexpected(char),
    /// A `/*` without its `*/`.
    UnterminatedComment,
    /// A control character other than a tab, a newline and a carriage return.
    ControlCode(char),
    /// A character that turns the order in which others are shown.
    BidirectionalOverride(char),
    /// A character of whose use Unicode advises against.
    Discouraged(char),
}

impl fmt::Display for FaultKind {
    ghost output = { fault_text };

    fn fmt<W: fmt::Write>(&self, f: &mut fmt::Formatter<W>) -> fmt::Result {
        match self {
            FaultKind::Unexpected(character) => write!(f, "unexpected character {character:?}"),
            FaultKind::UnterminatedComment => f.write_str("unterminated block comment"),
            FaultKind::ControlCode(character) => {
                let code = *character as u32;
                write!(f, "Control code '\\u{{{code:x}}}'")
            }
            FaultKind::BidirectionalOverride(character) => {
                let code = *character as u32;
                write!(
                    f,
                    "Input contains bidirectional override codepoint '\\u{{{code:x}}}'"
                )
            }
            FaultKind::Discouraged(character) => {
                let code = *character as u32;
                write!(f, "Codepoint '\\u{{{code:x}}}' is discouraged by Unicode")
            }
        }
    }
}

/// A fault with its place: the bytes before it, its line and its column, both from 1.
#[derive(Clone, Copy, Debug, PartialEq, Eq)]
pub struct TokenFault {
    pub kind: FaultKind,
    pub at: usize,
    pub line: usize,
    pub column: usize,
}

impl TokenFault {
    /// A fault at a position of a text.
    pub(crate) fn new(text: &str, at: usize, kind: FaultKind) -> TokenFault
        requires { at ≤ length text.now }
        ensures { result ≡ fault_at text.now at kind }
    {
        TokenFault {
            kind,
            at,
            line: line_number(text, at),
            column: column(text, at),
        }
    }
}

impl fmt::Display for TokenFault {
    ghost output = { placed_text };

    fn fmt<W: fmt::Write>(&self, f: &mut fmt::Formatter<W>) -> fmt::Result {
        let (kind, line, column) = (self.kind, self.line, self.column);
        write!(f, "{line}:{column}: {kind}")
    }
}

impl Error for TokenFault {}

/// Why a text has no list of tokens.
#[derive(Clone, Copy, Debug, PartialEq, Eq)]
pub enum TokensFault {
    /// The text has a fault.
    Fault(TokenFault),
    OutOfMemory,
}

impl fmt::Display for TokensFault {
    ghost output = { tokens_fault_text };

    fn fmt<W: fmt::Write>(&self, f: &mut fmt::Formatter<W>) -> fmt::Result {
        match self {
            TokensFault::Fault(fault) => write!(f, "{fault}"),
            TokensFault::OutOfMemory => f.write_str("out of memory"),
        }
    }
}

impl Error for TokensFault {}

impl<T: Drop> From<AllocFailed<T>> for TokensFault {
    ghost use Rattle.std.specs.Prelude.{◌≡◌};
    ghost use Rattle.wit_text.specs.declared.fault.TokensFault.TheVariants.{OutOfMemory};

    ghost from_gives = { λ _ fault. fault ≡ OutOfMemory };

    fn from(_refused: AllocFailed<T>) -> TokensFault {
        TokensFault::OutOfMemory
    }
}

impl From<TokenFault> for TokensFault {
    ghost use Rattle.std.specs.Prelude.{◌≡◌};
    ghost use Rattle.wit_text.specs.declared.fault.TokensFault.TheVariants.{Fault};

    ghost from_gives = { λ told fault. fault ≡ Fault told };

    fn from(fault: TokenFault) -> TokensFault {
        TokensFault::Fault(fault)
    }
}
