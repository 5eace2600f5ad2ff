//! What is wrong with a name.
ghost use Rattle.std.specs.Prelude.{◌≡◌};
ghost use Rattle.wit_text.specs.Name.{after, after_dash, after_digit, after_lower, after_upper, at_end, name_fault};

use crate::read_fault::ReadFaultKind;

/// What a word of a name has had.
#[derive(Clone, Copy, PartialEq, Eq)]
pub(crate) enum Word {
    /// Nothing, and it is the first.
    First,
    /// Nothing.
    Next,
    /// Digits alone.
    Digits,
    /// Small letters, and digits.
    Lower,
    /// Large letters, and digits.
    Upper,
}

/// What is wrong with a name, None where nothing is: it has words of one case each with `-` between,
/// and begins with a letter.
pub(crate) fn name_fault(name: &str) -> Option<ReadFaultKind>
    ensures { result ≡ name_fault name.now }
{
    let mut word = Word::First;
    for character in name.chars() {
        match after(word, character) {
            Ok(next) => word = next,
            Err(fault) => return Some(fault),
        }
    }
    at_end(word)
}

/// What a word has had with one more character.
fn after(word: Word, character: char) -> Result<Word, ReadFaultKind>
    ensures { result ≡ after word character }
{
    match character {
        '-' => after_dash(word),
        '0'..='9' => after_digit(character, word),
        'a'..='z' => after_lower(character, word),
        'A'..='Z' => after_upper(character, word),
        _ => Err(ReadFaultKind::CharacterInName(character)),
    }
}

/// What it has had with a `-`.
fn after_dash(word: Word) -> Result<Word, ReadFaultKind>
    ensures { result ≡ after_dash word }
{
    match word {
        Word::First | Word::Next => Err(ReadFaultKind::EmptyPart),
        _ => Ok(Word::Next),
    }
}

/// What it has had with a digit.
fn after_digit(digit: char, word: Word) -> Result<Word, ReadFaultKind>
    ensures { result ≡ after_digit digit word }
{
    match word {
        Word::First => Err(ReadFaultKind::CharacterInName(digit)),
        Word::Next => Ok(Word::Digits),
        _ => Ok(word),
    }
}

/// What it has had with a small letter.
fn after_lower(letter: char, word: Word) -> Result<Word, ReadFaultKind>
    ensures { result ≡ after_lower letter word }
{
    match word {
        Word::Upper => Err(ReadFaultKind::CharacterInName(letter)),
        _ => Ok(Word::Lower),
    }
}

/// What it has had with a large letter.
fn after_upper(letter: char, word: Word) -> Result<Word, ReadFaultKind>
    ensures { result ≡ after_upper letter word }
{
    match word {
        Word::Lower => Err(ReadFaultKind::CharacterInName(letter)),
        _ => Ok(Word::Upper),
    }
}

/// What is wrong with a name that ends behind a word.
fn at_end(word: Word) -> Option<ReadFaultKind>
    ensures { result ≡ at_end word }
{
    match word {
        Word::First | Word::Next => Some(ReadFaultKind::EmptyPart),
        _ => None,
    }
}
