//! Tokens and their kinds.
ghost use Rattle.std.specs.Prelude.{◌≡◌};
ghost use Rattle.wit_text.specs.Front.{sign_of};

use crate::keyword::Keyword;

/// A token of a text, with the bytes before it and those up to its end.
#[derive(Clone, Copy, Debug, PartialEq, Eq)]
pub struct Token {
    pub kind: TokenKind,
    pub start: usize,
    pub end: usize,
}

/// What a token is. White space and comments are tokens too.
#[derive(Clone, Copy, Debug, PartialEq, Eq)]
pub enum TokenKind {
    /// Spaces, tabs and line ends.
    Whitespace,
    /// `// ..` up to the end of its line, which it has.
    LineComment,
    /// `/* .. */`, which may hold others.
    BlockComment,
    /// A word that WIT has taken.
    Keyword(Keyword),
    /// Any other word.
    Id,
    /// `%` and a word, which may be a keyword, or nothing.
    ExplicitId,
    /// Decimal digits.
    Integer,
    /// `".."`, on one line and without a `\`.
    Text,
    /// A sign of one character, or `->`.
    Sign(Sign),
}

/// A sign.
#[derive(Clone, Copy, Debug, PartialEq, Eq)]
pub enum Sign {
    Equals,
    Comma,
    Colon,
    Semicolon,
    Period,
    LeftParen,
    RightParen,
    LeftBrace,
    RightBrace,
    LessThan,
    GreaterThan,
    Star,
    At,
    Slash,
    Plus,
    Minus,
    Arrow,
}

impl Sign {
    /// The sign that a character is whatever follows it, or None.
    pub(crate) fn from_char(character: char) -> Option<Sign>
        ensures { result ≡ sign_of character }
    {
        match character {
            '=' => Some(Sign::Equals),
            ',' => Some(Sign::Comma),
            ':' => Some(Sign::Colon),
            ';' => Some(Sign::Semicolon),
            '.' => Some(Sign::Period),
            '(' => Some(Sign::LeftParen),
            ')' => Some(Sign::RightParen),
            '{' => Some(Sign::LeftBrace),
            '}' => Some(Sign::RightBrace),
            '<' => Some(Sign::LessThan),
            '>' => Some(Sign::GreaterThan),
            '*' => Some(Sign::Star),
            '@' => Some(Sign::At),
            '+' => Some(Sign::Plus),
            _ => None,
        }
    }
}
