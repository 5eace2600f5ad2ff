//! Characters: which a text may have, and which a word has.
ghost use Rattle.std.specs.Prelude.{◌≡◌, ◌≤◌, IfSome, length};
ghost use Rattle.std.specs.Str.{IsCharBoundary};
ghost use Rattle.wit_text.specs.Character.{begins_word, continues_word, first_refused, refusal_of, word_len};

use crate::fault::FaultKind;
use unicode_ident::{is_xid_continue, is_xid_start};

/// Why a text may not have a character, None where it may.
fn refusal(character: char) -> Option<FaultKind>
    ensures { result ≡ refusal_of character }
{
    match character {
        '\t' | '\n' | '\r' => None,
        _ if character.is_control() => Some(FaultKind::ControlCode(character)),
        '\u{202a}'..='\u{202e}' | '\u{2066}'..='\u{2069}' => {
            Some(FaultKind::BidirectionalOverride(character))
        }
        '\u{149}'
        | '\u{673}'
        | '\u{f77}'
        | '\u{f79}'
        | '\u{17a3}'
        | '\u{17a4}'
        | '\u{17b4}'
        | '\u{17b5}' => Some(FaultKind::Discouraged(character)),
        _ => None,
    }
}

/// The first character that a text may not have, with the bytes before it.
pub(crate) fn first_refused(text: &str) -> Option<(usize, FaultKind)>
    ensures value { result ≡ first_refused text.now }
    ensures within { IfSome result (λ refused. refused.0 ≤ length text.now) }
{
    for (at, character) in text.char_indices() {
        if let Some(kind) = refusal(character) {
            return Some((at, kind));
        }
    }
    None
}

/// Whether a word may begin with a character.
pub(crate) fn begins_word(character: char) -> bool
    ensures { result ≡ begins_word character }
{
    if character.is_ascii() {
        return character.is_ascii_alphabetic() || character == '_';
    }
    is_xid_start(character)
}

/// Whether a word goes on with a character.
fn continues_word(character: char) -> bool
    ensures { result ≡ continues_word character }
{
    if character.is_ascii() {
        return character.is_ascii_alphanumeric() || character == '_' || character == '-';
    }
    is_xid_continue(character)
}

/// How many bytes the characters have with which a word goes on.
pub(crate) fn word_len(text: &str) -> usize
    ensures value { result ≡ word_len text.now }
    ensures boundary { IsCharBoundary text.now result }
{
    for (at, character) in text.char_indices() {
        if !continues_word(character) {
            return at;
        }
    }
    text.len()
}
