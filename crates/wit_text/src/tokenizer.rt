//! The tokens of a text, one after another.
ghost use Rattle.std.specs.Prelude.{◌≡◌, ◌<◌, length};
ghost use Rattle.wit_text.specs.Tokens.{Begins, Gives, IfToken, left_of, next_of, offset, tokens_of};

use crate::character::first_refused;
use crate::fault::{TokenFault, TokensFault};
use crate::front::read_front;
use crate::token::Token;
use std::alloc::Global;

/// Reads the tokens of a text, white space and comments among them, each behind the one before.
#[derive(Clone, Copy)]
pub struct Tokenizer<'a> {
    text: &'a str,
    rest: &'a str,
}

impl<'a> Tokenizer<'a> {
    /// Begins with a text, behind its byte order mark if it has one. A character that no text may
    /// have is a fault.
    pub fn new(text: &'a str) -> Result<Tokenizer<'a>, TokenFault>
        ensures { Begins text.now result }
    {
        if let Some((at, kind)) = first_refused(text) {
            return Err(TokenFault::new(text, at, kind));
        }
        let rest = text.strip_prefix("\u{feff}").unwrap_or(text);
        Ok(Tokenizer { text, rest })
    }

    /// How many bytes stand before the next token.
    pub fn offset(&self) -> usize
        ensures { result ≡ offset self.now.text.now self.now.rest.now }
    {
        self.text.len().saturating_sub(self.rest.len())
    }

    /// The next token, None at the end. At a fault the tokenizer stays where it is.
    pub fn next_token(&mut self) -> Result<Option<Token>, TokenFault>
        ensures value { result ≡ next_of self.old.text.now self.old.rest.now }
        ensures left { self.new.rest.now ≡ left_of self.old.rest.now }
        ensures text { self.new.text.now ≡ self.old.text.now }
        ensures shorter { IfToken result (length self.new.rest.now < length self.old.rest.now) }
    {
        let start = self.offset();
        match read_front(self.rest) {
            None => Ok(None),
            Some(Err(kind)) => Err(TokenFault::new(self.text, start, kind)),
            Some(Ok(front)) => {
                self.rest = &self.rest[front.len..];
                Ok(Some(Token {
                    kind: front.kind,
                    start,
                    end: self.offset(),
                }))
            }
        }
    }
}

/// The tokens of a text, white space and comments among them.
pub fn tokens(alloc: Global, text: &str) -> Result<Vec<Token>, TokensFault>
    ensures { Gives (λ v. v.items) result (tokens_of text.now) }
{
    let mut tokenizer = Tokenizer::new(text)?;
    let mut found = Vec::new(alloc);
    while let Some(token) = tokenizer.next_token()? {
        found.push(token)?;
    }
    Ok(found)
}
