//! The tokens that the grammar reads, each with its text, its place and the comments before it.
ghost use Rattle.std.specs.Prelude.{◌≤◌, IfSome};

use crate::character::first_refused;
use crate::comments::Comments;
use crate::fault::FaultKind;
use crate::front::{Front, read_front};
use crate::syntax::Piece;
use crate::token::TokenKind;
use std::alloc::{AllocError, Global};
use wit_sources::Span;
use wit_values::Items;

/// A token that is neither white space nor a comment: the bytes of the source before it and those up
/// to its end, its place, and the comments before it.
#[derive(Clone, Copy)]
pub(crate) struct Lexeme {
    pub kind: TokenKind,
    pub start: usize,
    pub end: usize,
    pub span: Span,
    pub comments: Option<Comments>,
}

impl Lexeme {
    /// What it is in the source, with its place.
    pub fn piece(&self) -> Piece {
        Piece {
            start: self.start,
            end: self.end,
            span: self.span,
        }
    }

    /// The name that it is, without its `%`.
    pub fn name(&self) -> Piece {
        let start = match self.kind {
            TokenKind::ExplicitId => self.start.saturating_add(1),
            _ => self.start,
        };
        Piece {
            start,
            end: self.end,
            span: self.span,
        }
    }

    /// What stands between the quotes of a string.
    pub fn quoted(&self) -> Piece {
        Piece {
            start: self.start.saturating_add(1),
            end: self.end.saturating_sub(1),
            span: self.span,
        }
    }
}

/// Where the tokens end: at the end of the file, or at what is no token.
#[derive(Clone, Copy)]
pub(crate) struct End {
    pub fault: Option<FaultKind>,
    pub span: Span,
}

/// The tokens of a file, up to where they end.
#[derive(Drop)]
pub(crate) struct Lexemes {
    pub list: Items<Lexeme>,
    pub end: End,
}

/// The tokens of a file whose first byte has a position. The only error is want of memory.
pub(crate) fn read_lexemes(alloc: Global, text: &str, start: u32) -> Result<Lexemes, AllocError> {
    let mut list = Items::new(alloc);
    if let Some((at, kind)) = first_refused(text) {
        let end = fault_at(start, at, kind);
        return Ok(Lexemes { list, end });
    }
    let mut rest = text.strip_prefix("\u{feff}").unwrap_or(text);
    let mut comments = None;
    while let Some(read) = read_front(rest) {
        let at = text.len().saturating_sub(rest.len());
        match read {
            Ok(front) => {
                let (token, behind) = (&rest[..front.len], &rest[front.len..]);
                let span = place(start, at, token.trim_ascii_end().len());
                comments = add_front(&mut list, at, front, span, comments)?;
                rest = behind;
            }
            Err(kind) => {
                let end = fault_at(start, at, kind);
                return Ok(Lexemes { list, end });
            }
        }
    }
    let end = End {
        fault: None,
        span: place(start, text.len(), 0),
    };
    Ok(Lexemes { list, end })
}

/// Adds a token behind so many bytes, unless it is white space or a comment. Answers the comments
/// before what follows it. (A line comment has its place without the newline.)
fn add_front(
    list: &mut Items<Lexeme>,
    at: usize,
    front: Front,
    span: Span,
    comments: Option<Comments>,
) -> Result<Option<Comments>, AllocError> {
    match front.kind {
        TokenKind::Whitespace => Ok(comments),
        TokenKind::LineComment | TokenKind::BlockComment => {
            Ok(Some(with_comment(comments, at, span)))
        }
        kind => {
            let end = at.saturating_add(front.len);
            list.push(Lexeme {
                kind,
                start: at,
                end,
                span,
                comments,
            })?;
            Ok(None)
        }
    }
}

/// Comments, and one more behind them.
fn with_comment(before: Option<Comments>, start: usize, span: Span) -> Comments {
    match before {
        Some(first) => Comments {
            start: first.start,
            span: up_to(first.span, span),
        },
        None => Comments { start, span },
    }
}

/// The end of the tokens at what is no token.
fn fault_at(start: u32, at: usize, kind: FaultKind) -> End {
    End {
        fault: Some(kind),
        span: place(start, at, fault_len(kind)),
    }
}

/// How many bytes a fault is about.
fn fault_len(kind: FaultKind) -> usize {
    match kind {
        FaultKind::UnterminatedComment => 1,
        FaultKind::Unexpected(character)
        | FaultKind::ControlCode(character)
        | FaultKind::BidirectionalOverride(character)
        | FaultKind::Discouraged(character) => character.len_utf8(),
    }
}

/// The place of so many bytes at a position of a file, whose first byte has a position: unknown
/// where it would pass 4294967295.
pub(crate) fn place(start: u32, at: usize, len: usize) -> Span {
    let Some(begin) = position(start, at) else {
        return Span::unknown();
    };
    match position(begin, len) {
        Some(end) => Span::new(begin, end),
        None => Span::unknown(),
    }
}

/// The position so many bytes further on, None where it would pass 4294967295.
fn position(start: u32, len: usize) -> Option<u32>
    ensures { IfSome result (λ end. start ≤ end) }
{
    let len = u32::try_from(len).ok()?;
    start.checked_add(len)
}

/// The place from the beginning of one to the end of another, which stands behind it.
pub(crate) fn up_to(first: Span, last: Span) -> Span {
    if first.is_known() && last.is_known() && first.start() <= last.end() {
        Span::new(first.start(), last.end())
    } else {
        Span::unknown()
    }
}
