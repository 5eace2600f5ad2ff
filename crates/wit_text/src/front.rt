//! What stands at the front of a text.
ghost use Rattle.std.specs.Char.{encode_utf8, is_ascii_digit};
ghost use Rattle.std.specs.List.{prefix_len};
ghost use Rattle.std.specs.Prelude.{◌≡◌, ◌≤◌, ◌++◌, IfOk, IfSome, length};
ghost use Rattle.std.specs.Str.{IsCharBoundary};
ghost use Rattle.wit_text.specs.Front.{after_minus, after_quote, after_slash, begins_with, blank_len, closes, comment_len, Fits, explicit_len, front, front_of, is_blank, line_len, opens, sign_of, sign_or_word, string_len, token_at, word};
ghost use Rattle.wit_text.specs.declared.token.TokenKind.TheVariants as kind;

use crate::character::{begins_word, word_len};
use crate::fault::FaultKind;
use crate::keyword::Keyword;
use crate::token::{Sign, TokenKind};

/// A token of a kind, and how many bytes it has.
#[derive(Clone, Copy)]
pub struct Front {
    pub kind: TokenKind,
    pub len: usize,
}

impl Front {
    fn new(kind: TokenKind, len: usize) -> Front
        ensures { result ≡ front kind len }
    {
        Front { kind, len }
    }

    fn sign(sign: Sign, len: usize) -> Front
        ensures { result ≡ front (kind.Sign sign) len }
    {
        Front::new(TokenKind::Sign(sign), len)
    }
}

/// What stands at the front of a text: a token, or why there is none; None where the text is empty.
pub(crate) fn read_front(text: &str) -> Option<Result<Front, FaultKind>>
    ensures value { result ≡ front_of text.now }
    ensures fits { IfSome result (λ read. IfOk read (λ token. Fits text.now token.len)) }
{
    let mut characters = text.chars();
    let first = characters.next()?;
    Some(token_at(text, first, characters.as_str()))
}

/// What stands at the front of a text that begins with a character, before the rest.
fn token_at(text: &str, first: char, rest: &str) -> Result<Front, FaultKind>
    requires { text.now ≡ encode_utf8 first ++ rest.now }
    ensures { result ≡ token_at text.now first rest.now }
{
    let blanks = blank_len(text.as_bytes());
    if blanks > 0 {
        return Ok(Front::new(TokenKind::Whitespace, blanks));
    }
    match first {
        '/' => after_slash(rest.as_bytes()),
        '-' => Ok(after_minus(rest.as_bytes())),
        '%' => Ok(Front::new(TokenKind::ExplicitId, 1 + explicit_len(rest))),
        '"' => after_quote(rest.as_bytes()),
        '0'..='9' => Ok(Front::new(TokenKind::Integer, digits_len(text.as_bytes()))),
        _ => sign_or_word(text, first, rest),
    }
}

/// A sign, or else a word.
fn sign_or_word(text: &str, first: char, rest: &str) -> Result<Front, FaultKind>
    requires { text.now ≡ encode_utf8 first ++ rest.now }
    ensures { result ≡ sign_or_word text.now first rest.now (sign_of first) }
{
    if let Some(sign) = Sign::from_char(first) {
        return Ok(Front::sign(sign, 1));
    }
    if !begins_word(first) {
        return Err(FaultKind::Unexpected(first));
    }
    let len = first.len_utf8() + word_len(rest);
    Ok(word(text, len))
}

/// The word of so many bytes at the front of a text.
fn word(text: &str, len: usize) -> Front
    requires { IsCharBoundary text.now len }
    ensures { result ≡ word text.now len }
{
    match Keyword::from_word(&text[..len]) {
        Some(keyword) => Front::new(TokenKind::Keyword(keyword), len),
        None => Front::new(TokenKind::Id, len),
    }
}

/// How many bytes of white space a text begins with.
fn blank_len(bytes: &[u8]) -> usize
    ensures { result ≡ blank_len bytes.now }
{
    for (index, byte) in bytes.iter().enumerate() {
        if !is_blank(*byte, &bytes[index + 1..]) {
            return index;
        }
    }
    bytes.len()
}

/// Whether a byte is white space before the rest.
fn is_blank(byte: u8, rest: &[u8]) -> bool
    ensures { result ≡ is_blank byte rest.now }
{
    match byte {
        b' ' | b'\t' | b'\n' => true,
        b'\r' => begins_with(b'\n', rest),
        _ => false,
    }
}

/// Whether a text begins with a byte.
fn begins_with(byte: u8, bytes: &[u8]) -> bool
    ensures { result ≡ begins_with byte bytes.now }
{
    bytes.first() == Some(&byte)
}

/// What begins with a `/`: a comment, or the sign.
fn after_slash(rest: &[u8]) -> Result<Front, FaultKind>
    ensures { result ≡ after_slash rest.now }
{
    match rest.split_first() {
        Some((b'/', line)) => Ok(Front::new(TokenKind::LineComment, 2 + line_len(line))),
        Some((b'*', comment)) => match comment_len(comment) {
            Some(len) => Ok(Front::new(TokenKind::BlockComment, 2 + len)),
            None => Err(FaultKind::UnterminatedComment),
        },
        _ => Ok(Front::sign(Sign::Slash, 1)),
    }
}

/// How many bytes a text has up to the end of its first line, the newline included.
fn line_len(bytes: &[u8]) -> usize
    ensures value { result ≡ line_len bytes.now }
    ensures within { result ≤ length bytes.now }
{
    for (index, byte) in bytes.iter().enumerate() {
        if *byte == b'\n' {
            return index + 1;
        }
    }
    bytes.len()
}

/// How many bytes there are up to the end of a comment, from within it. None where the text ends
/// before.
fn comment_len(bytes: &[u8]) -> Option<usize>
    ensures value { result ≡ comment_len 0 bytes.now }
    ensures within { IfSome result (λ len. len ≤ length bytes.now) }
{
    let (mut inner, mut len) = (0_usize, 0_usize);
    while len + 1 < bytes.len() {
        let (first, second) = (bytes[len], bytes[len + 1]);
        if opens(first, second) {
            inner += 1;
            len += 2;
        } else if closes(first, second) {
            len += 2;
            if inner == 0 {
                return Some(len);
            }
            inner -= 1;
        } else {
            len += 1;
        }
    }
    None
}

/// Whether two bytes open a comment.
fn opens(first: u8, second: u8) -> bool
    ensures { result ≡ opens first second }
{
    first == b'/' && second == b'*'
}

/// Whether two bytes close a comment.
fn closes(first: u8, second: u8) -> bool
    ensures { result ≡ closes first second }
{
    first == b'*' && second == b'/'
}

/// What begins with a `-`: an arrow, or the sign.
fn after_minus(rest: &[u8]) -> Front
    ensures { result ≡ after_minus rest.now }
{
    if begins_with(b'>', rest) {
        Front::sign(Sign::Arrow, 2)
    } else {
        Front::sign(Sign::Minus, 1)
    }
}

/// What begins with a `"`: a string, or a character that is no token.
fn after_quote(rest: &[u8]) -> Result<Front, FaultKind>
    ensures { result ≡ after_quote (string_len rest.now) }
{
    match string_len(rest) {
        Some(len) => Ok(Front::new(TokenKind::Text, 1 + len)),
        None => Err(FaultKind::Unexpected('"')),
    }
}

/// How many bytes a string has after its first quote, the last one included.
fn string_len(bytes: &[u8]) -> Option<usize>
    ensures value { result ≡ string_len bytes.now }
    ensures within { IfSome result (λ len. len ≤ length bytes.now) }
{
    for (index, byte) in bytes.iter().enumerate() {
        match byte {
            b'"' => return Some(index + 1),
            b'\n' | b'\\' => return None,
            _ => {}
        }
    }
    None
}

/// How many bytes the word after a `%` has.
fn explicit_len(rest: &str) -> usize
    ensures value { result ≡ explicit_len rest.now }
    ensures within { result ≤ length rest.now }
{
    match rest.chars().next() {
        Some(first) if begins_word(first) || first == '-' => word_len(rest),
        _ => 0,
    }
}

/// How many digits a text begins with.
fn digits_len(bytes: &[u8]) -> usize
    ensures { result ≡ prefix_len is_ascii_digit bytes.now }
{
    for (index, byte) in bytes.iter().enumerate() {
        if !byte.is_ascii_digit() {
            return index;
        }
    }
    bytes.len()
}
