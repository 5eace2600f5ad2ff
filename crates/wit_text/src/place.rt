//! Lines and columns.
ghost use Rattle.std.specs.Fmt.{is_char_start};
ghost use Rattle.std.specs.List.{suffix_len};
ghost use Rattle.std.specs.Prelude.{◌≡◌, ◌≤◌, ◌-◌, length, not};
ghost use Rattle.wit_sources.specs.Lines.{column, is_line_feed, line_number};

/// The number of the line in which a position of a text stands, from 1.
pub(crate) fn line_number(text: &str, at: usize) -> usize
    requires { at ≤ length text.now }
    ensures { result ≡ line_number text.now at }
{
    let before = &text.as_bytes()[..at];
    before.iter().filter(|byte| **byte == b'\n').count() + 1
}

/// The column at which a position of a text stands in its line, from 1: characters before it are
/// counted.
pub(crate) fn column(text: &str, at: usize) -> usize
    requires { at ≤ length text.now }
    ensures { result ≡ column text.now at }
{
    let before = &text.as_bytes()[..at];
    let line = &before[last_line(before)..];
    line.iter().filter(|byte| begins_character(**byte)).count() + 1
}

/// Where the last line of some bytes begins.
fn last_line(bytes: &[u8]) -> usize
    ensures value { result ≡ length bytes.now - suffix_len (λ b. not (is_line_feed b)) bytes.now }
    ensures within { result ≤ length bytes.now }
{
    let mut start = bytes.len();
    while start > 0 && bytes[start - 1] != b'\n' {
        start -= 1;
    }
    start
}

/// Whether a byte is the first of a character.
fn begins_character(byte: u8) -> bool
    ensures { result ≡ is_char_start byte }
{
    !(0x80..0xC0).contains(&byte)
}
