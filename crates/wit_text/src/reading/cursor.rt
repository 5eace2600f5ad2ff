//! What is left of the tokens of a file.
ghost use Rattle.std.specs.Prelude.{◌<◌, ◌≤◌, ◌≡◌, ◌-◌, length, IfOk, IfSome, IsTrue, OnOk};

use crate::comments::Comments;
use crate::keyword::Keyword;
use crate::read_fault::{Found, ReadFault, ReadFaultKind, Wanted};
use crate::reading::lexeme::{End, Lexeme, place};
use crate::reading::name::name_fault;
use crate::syntax::Piece;
use crate::token::{Sign, TokenKind};
use std::alloc::Global;
use wit_sources::Span;

/// What is left of the tokens of a file, and where they end.
#[derive(Clone, Copy)]
pub(crate) struct Cursor<'a> {
    pub alloc: Global,
    pub source: &'a str,
    pub rest: &'a [Lexeme],
    pub end: End,
}

impl<'a> Cursor<'a> {
    /// Whether the file ends here.
    pub fn is_at_end(&mut self) -> bool
        ensures { length self.new.rest.now ≡ length self.old.rest.now }
    {
        self.rest.is_empty() && self.end.fault.is_none()
    }

    /// The keyword that stands here.
    pub fn keyword(&mut self) -> Option<Keyword>
        ensures some { IfSome result (λ _. 0 < length self.old.rest.now) }
        ensures left { length self.new.rest.now ≡ length self.old.rest.now }
    {
        match self.rest.first()?.kind {
            TokenKind::Keyword(keyword) => Some(keyword),
            _ => None,
        }
    }

    /// The place of what stands here.
    pub fn span(&mut self) -> Span
        ensures { length self.new.rest.now ≡ length self.old.rest.now }
    {
        match self.rest.first() {
            Some(next) => next.span,
            None => self.end.span,
        }
    }

    /// The comments before what stands here.
    pub fn comments(&mut self) -> Option<Comments>
        ensures { length self.new.rest.now ≡ length self.old.rest.now }
    {
        comments_before(self.rest)
    }

    /// The kind of the token behind so many others, None at the end of the file. What is no token
    /// is a fault.
    pub fn ahead(&self, count: usize) -> Result<Option<TokenKind>, ReadFault> {
        if let Some(token) = self.rest.get(count) {
            return Ok(Some(token.kind));
        }
        match self.end.fault {
            Some(kind) => Err(ReadFault::At(self.end.span, ReadFaultKind::Token(kind))),
            None => Ok(None),
        }
    }

    /// Takes the next token.
    pub fn advance(&mut self) -> Option<Lexeme>
        ensures left { length self.new.rest.now ≡ length self.old.rest.now - 1 }
        ensures some { IfSome result (λ _. 0 < length self.old.rest.now) }
    {
        let first = *self.rest.first()?;
        self.rest = &self.rest[1..];
        Some(first)
    }

    /// Takes the next token if it is of this kind.
    pub fn take(&mut self, kind: TokenKind) -> Option<Lexeme>
        ensures taken { IfSome result (λ _. length self.new.rest.now < length self.old.rest.now) }
        ensures within { length self.new.rest.now ≤ length self.old.rest.now }
    {
        let first = *self.rest.first()?;
        if first.kind != kind {
            return None;
        }
        self.rest = &self.rest[1..];
        Some(first)
    }

    /// Whether the next token is this sign.
    pub fn stands(&mut self, sign: Sign) -> bool
        ensures { length self.new.rest.now ≡ length self.old.rest.now }
    {
        match self.rest.first() {
            Some(next) => next.kind == TokenKind::Sign(sign),
            None => false,
        }
    }

    /// Whether the next token is this sign, which is taken then.
    pub fn takes(&mut self, sign: Sign) -> bool
        ensures taken { IsTrue result → length self.new.rest.now < length self.old.rest.now }
        ensures within { length self.new.rest.now ≤ length self.old.rest.now }
    {
        self.take(TokenKind::Sign(sign)).is_some()
    }

    /// Whether the next token is this keyword, which is taken then.
    pub fn takes_word(&mut self, keyword: Keyword) -> bool
        ensures taken { IsTrue result → length self.new.rest.now < length self.old.rest.now }
        ensures within { length self.new.rest.now ≤ length self.old.rest.now }
    {
        self.take(TokenKind::Keyword(keyword)).is_some()
    }

    /// Takes the next token, which has to be of this kind.
    pub fn expect(&mut self, kind: TokenKind) -> Result<Lexeme, ReadFault>
        ensures { OnOk result (length self.new.rest.now < length self.old.rest.now) }
    {
        match self.take(kind) {
            Some(token) => Ok(token),
            None => Err(self.expected(Wanted::Token(kind))),
        }
    }

    /// Takes this sign, which has to stand here.
    pub fn expect_sign(&mut self, sign: Sign) -> Result<(), ReadFault>
        ensures { OnOk result (length self.new.rest.now < length self.old.rest.now) }
    {
        self.expect(TokenKind::Sign(sign))?;
        Ok(())
    }

    /// Takes this keyword, which has to stand here.
    pub fn expect_word(&mut self, keyword: Keyword) -> Result<(), ReadFault>
        ensures { OnOk result (length self.new.rest.now < length self.old.rest.now) }
    {
        self.expect(TokenKind::Keyword(keyword))?;
        Ok(())
    }

    /// The fault that something else should stand here; what is no token is a fault of its own.
    pub fn expected(&mut self, wanted: Wanted) -> ReadFault
        ensures { length self.new.rest.now ≡ length self.old.rest.now }
    {
        let kind = match (self.rest.first(), self.end.fault) {
            (None, Some(fault)) => ReadFaultKind::Token(fault),
            (None, None) => ReadFaultKind::Expected {
                wanted,
                found: Found::End,
            },
            (Some(next), _) => ReadFaultKind::Expected {
                wanted,
                found: Found::Token(next.kind),
            },
        };
        ReadFault::At(self.span(), kind)
    }

    /// Takes a name, which has to stand here.
    pub fn name(&mut self) -> Result<Piece, ReadFault>
        ensures { OnOk result (length self.new.rest.now < length self.old.rest.now) }
    {
        self.name_or(Wanted::Name)
    }

    /// Takes a name. Where none stands here, the fault names what should.
    pub fn name_or(&mut self, wanted: Wanted) -> Result<Piece, ReadFault>
        ensures { OnOk result (length self.new.rest.now < length self.old.rest.now) }
    {
        let token = match self.take(TokenKind::Id) {
            Some(token) => token,
            None => match self.take(TokenKind::ExplicitId) {
                Some(token) => token,
                None => return Err(self.expected(wanted)),
            },
        };
        let text = token.piece().text(self.source);
        let name = token.name();
        match name_fault(name.text(self.source)) {
            Some(fault) => Err(ReadFault::At(first_character(text, token.span), fault)),
            None => Ok(name),
        }
    }

    /// The name behind an `as`, where one stands here; else this name.
    pub fn name_behind_as(&mut self, name: Piece) -> Result<Piece, ReadFault>
        ensures { OnOk result (length self.new.rest.now ≤ length self.old.rest.now) }
    {
        if self.takes_word(Keyword::As) {
            return self.name();
        }
        Ok(name)
    }

    /// Whether a list goes on behind one of its members. Takes the comma, or what ends the list.
    pub fn goes_on(&mut self, end: Sign) -> Result<bool, ReadFault>
        ensures { OnOk result (length self.new.rest.now < length self.old.rest.now) }
    {
        if self.takes(Sign::Comma) {
            return Ok(true);
        }
        self.expect_sign(end)?;
        Ok(false)
    }
}

/// Where the comments before the first token stand.
fn comments_before(tokens: &[Lexeme]) -> Option<Comments> {
    let first = tokens.first()?;
    first.comments
}

/// The place of the first character of a text that has a place.
fn first_character(text: &str, span: Span) -> Span {
    let len = text.chars().next().map_or(1, char::len_utf8);
    if span.is_known() {
        place(span.start(), 0, len)
    } else {
        span
    }
}
