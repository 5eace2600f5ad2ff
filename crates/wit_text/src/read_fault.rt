//! Why a file isn't read.
ghost use Rattle.std.specs.Prelude.{◌≡◌, Some};
ghost use Rattle.wit_text.specs.ReadFault.{sign_text, token_text, found_text, read_fault_text, unread_text, words_of_wanted};

use crate::fault::FaultKind;
use crate::token::{Sign, TokenKind};
use std::alloc::AllocError;
use std::fmt;
use wit_sources::Span;
use wit_values::Text;

/// What should stand at a place.
#[derive(Clone, Copy)]
pub enum Wanted {
    Token(TokenKind),
    Name,
    Type_,
    Item,
    InterfaceStatement,
    WorldStatement,
    ResourceFunction,
    ListLength,
    /// The word `version`.
    Version,
    /// The word `feature`.
    Feature,
}

impl fmt::Display for Wanted {
    ghost output = { λ w. Some (words_of_wanted w) };

    fn fmt<W: fmt::Write>(&self, f: &mut fmt::Formatter<W>) -> fmt::Result {
        match self {
            Wanted::Token(kind) => write!(f, "{kind}"),
            Wanted::Name => f.write_str("an identifier or string"),
            Wanted::Type_ => f.write_str("a type"),
            Wanted::Item => f.write_str("`world`, `interface` or `use`"),
            Wanted::InterfaceStatement => f.write_str("`type`, `resource` or `func`"),
            Wanted::WorldStatement => {
                f.write_str("`import`, `export`, `include`, `use`, or type definition")
            }
            Wanted::ResourceFunction => f.write_str("`constructor` or identifier"),
            Wanted::ListLength => f.write_str("fixed-length"),
            Wanted::Version => f.write_str("`version`"),
            Wanted::Feature => f.write_str("`feature`"),
        }
    }
}

/// What stands at a place.
#[derive(Drop)]
pub enum Found {
    /// The end of the file.
    End,
    Token(TokenKind),
    Word(Text),
}

impl fmt::Display for Found {
    ghost output = { λ f. Some (found_text f) };

    fn fmt<W: fmt::Write>(&self, f: &mut fmt::Formatter<W>) -> fmt::Result {
        match self {
            Found::End => f.write_str("eof"),
            Found::Token(kind) => write!(f, "{kind}"),
            Found::Word(word) => write!(f, "`{word}`"),
        }
    }
}

/// What is wrong.
#[derive(Drop)]
pub enum ReadFaultKind {
    /// What stands here is no token.
    Token(FaultKind),
    /// Something else has to stand here.
    Expected { wanted: Wanted, found: Found },
    /// A name can't have this character there.
    CharacterInName(char),
    /// A part of a name, between two `-`, at the beginning or at the end, is empty.
    EmptyPart,
    /// A version that isn't one of SemVer 2.0.0.
    NoVersion(semver::Error),
    /// The length of a list passes 4294967295.
    ListLength,
    /// The length of a list is 0.
    EmptyList,
    UnknownAttribute(Text),
    /// Attributes before a package in braces.
    AttributesOnPackage,
}

impl fmt::Display for ReadFaultKind {
    ghost output = { read_fault_text };

    fn fmt<W: fmt::Write>(&self, f: &mut fmt::Formatter<W>) -> fmt::Result {
        match self {
            ReadFaultKind::Token(kind) => write!(f, "{kind}"),
            ReadFaultKind::Expected { wanted, found } => {
                write!(f, "expected {wanted}, found {found}")
            }
            ReadFaultKind::CharacterInName(character) => {
                write!(f, "invalid character in identifier {character:?}")
            }
            ReadFaultKind::EmptyPart => {
                f.write_str("identifiers must have characters between '-'s")
            }
            ReadFaultKind::NoVersion(error) => write!(f, "{error}"),
            ReadFaultKind::ListLength => {
                f.write_str("invalid list size: number too large to fit in target type")
            }
            ReadFaultKind::EmptyList => {
                f.write_str("a fixed-length list must have more than zero elements")
            }
            ReadFaultKind::UnknownAttribute(name) => write!(f, "unknown attribute `{name}`"),
            ReadFaultKind::AttributesOnPackage => {
                f.write_str("cannot place attributes on nested packages")
            }
        }
    }
}

/// Why a file isn't read: what is wrong at a place of it, or want of memory.
#[derive(Drop)]
pub enum ReadFault {
    At(Span, ReadFaultKind),
    OutOfMemory,
}

impl fmt::Display for ReadFault {
    ghost output = { unread_text };

    fn fmt<W: fmt::Write>(&self, f: &mut fmt::Formatter<W>) -> fmt::Result {
        match self {
            ReadFault::At(_, kind) => write!(f, "{kind}"),
            ReadFault::OutOfMemory => f.write_str("out of memory"),
        }
    }
}

impl From<AllocError> for ReadFault {
    ghost use Rattle.std.specs.Prelude.{◌≡◌};
    ghost use Rattle.wit_text.specs.declared.read_fault.ReadFault.TheVariants.{OutOfMemory};

    ghost from_gives = { λ _ fault. fault ≡ OutOfMemory };

    fn from(_refused: AllocError) -> ReadFault {
        ReadFault::OutOfMemory
    }
}

/// What messages call a token.
impl fmt::Display for TokenKind {
    ghost output = { λ k. Some (token_text k) };

    fn fmt<W: fmt::Write>(&self, f: &mut fmt::Formatter<W>) -> fmt::Result {
        match self {
            TokenKind::Whitespace => f.write_str("whitespace"),
            TokenKind::LineComment | TokenKind::BlockComment => f.write_str("a comment"),
            TokenKind::Keyword(keyword) => {
                let word = keyword.text();
                write!(f, "keyword `{word}`")
            }
            TokenKind::Id => f.write_str("an identifier"),
            TokenKind::ExplicitId => f.write_str("an '%' identifier"),
            TokenKind::Integer => f.write_str("an integer"),
            TokenKind::Text => f.write_str("a string"),
            TokenKind::Sign(sign) => f.write_str(sign_text(*sign)),
        }
    }
}

/// What messages call a sign.
fn sign_text(sign: Sign) -> &'static str
    ensures { result.now ≡ sign_text sign }
{
    match sign {
        Sign::Equals => "'='",
        Sign::Comma => "','",
        Sign::Colon => "':'",
        Sign::Semicolon => "';'",
        Sign::Period => "'.'",
        Sign::LeftParen => "'('",
        Sign::RightParen => "')'",
        Sign::LeftBrace => "'{'",
        Sign::RightBrace => "'}'",
        Sign::LessThan => "'<'",
        Sign::GreaterThan => "'>'",
        Sign::Star => "`*`",
        Sign::At => "`@`",
        Sign::Slash => "`/`",
        Sign::Plus => "`+`",
        Sign::Minus => "`-`",
        Sign::Arrow => "`->`",
    }
}
