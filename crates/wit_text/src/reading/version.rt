//! Versions.
ghost use Rattle.std.specs.Prelude.{◌<◌, ◌≤◌, length, IfOk, IfSome, OnOk};

use crate::read_fault::{ReadFault, ReadFaultKind};
use crate::reading::cursor::Cursor;
use crate::reading::lexeme::{Lexeme, up_to};
use crate::syntax::Piece;
use crate::token::{Sign, TokenKind};
use std::alloc::{AllocError, Global};

impl<'a> Cursor<'a> {
    /// Takes the version behind an `@`, where there is one.
    pub fn version_behind_at(&mut self) -> Result<Option<Piece>, ReadFault>
        ensures { OnOk result (length self.new.rest.now ≤ length self.old.rest.now) }
    {
        if !self.takes(Sign::At) {
            return Ok(None);
        }
        Ok(Some(self.version()?))
    }

    /// Takes a version, which has to stand here.
    pub fn version(&mut self) -> Result<Piece, ReadFault>
        ensures { OnOk result (length self.new.rest.now < length self.old.rest.now) }
    {
        let first = self.expect(TokenKind::Integer)?;
        self.expect_sign(Sign::Period)?;
        self.expect(TokenKind::Integer)?;
        self.expect_sign(Sign::Period)?;
        let patch = self.expect(TokenKind::Integer)?;
        let release = self.version_part(Sign::Minus, patch)?;
        let last = self.version_part(Sign::Plus, release)?;
        let piece = between(first, last);
        match version_fault(self.alloc, piece.text(self.source))? {
            Some(error) => Err(ReadFault::At(piece.span, ReadFaultKind::NoVersion(error))),
            None => Ok(piece),
        }
    }

    /// Takes a part of a version behind its sign, where there is one: names, numbers and `-`, with
    /// dots between. Answers the last token of the version so far.
    fn version_part(&mut self, sign: Sign, before: Lexeme) -> Result<Lexeme, ReadFault>
        ensures { OnOk result (length self.new.rest.now ≤ length self.old.rest.now) }
    {
        self.ahead(0)?;
        let mut last = before;
        if self.takes(sign) {
            while let Some(token) = self.version_token()? {
                last = token;
            }
        }
        Ok(last)
    }

    /// Takes the next token of a part of a version, and a dot before it.
    fn version_token(&mut self) -> Result<Option<Lexeme>, ReadFault>
        ensures taken { IfOk result (λ token.
            IfSome token (λ _. length self.new.rest.now < length self.old.rest.now)) }
        ensures within { OnOk result (length self.new.rest.now ≤ length self.old.rest.now) }
    {
        let next = self.ahead(0)?;
        if next == Some(TokenKind::Sign(Sign::Period)) && is_part(self.ahead(1)?) {
            self.advance();
            return Ok(self.advance());
        }
        if !is_part(next) {
            return Ok(None);
        }
        Ok(self.advance())
    }
}

/// What stands from one token up to the end of another, with its place.
fn between(first: Lexeme, last: Lexeme) -> Piece {
    Piece {
        start: first.start,
        end: last.end,
        span: up_to(first.span, last.span),
    }
}

/// Whether a part of a version may have a token.
fn is_part(kind: Option<TokenKind>) -> bool {
    matches!(
        kind,
        Some(TokenKind::Id | TokenKind::Integer | TokenKind::Sign(Sign::Minus))
    )
}

/// What is wrong with a version, None where nothing is. The only error is want of memory.
fn version_fault(alloc: Global, text: &str) -> Result<Option<semver::Error>, AllocError> {
    match semver::Version::parse(alloc, text) {
        Ok(_) => Ok(None),
        Err(error) if error == semver::Error::from(AllocError) => Err(AllocError),
        Err(error) => Ok(Some(error)),
    }
}
