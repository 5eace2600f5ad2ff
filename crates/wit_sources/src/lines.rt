//! Lines and columns of a text.
ghost use Rattle.std.specs.Prelude.{◌≡◌, ◌≤◌, ◌<◌, ◌-◌, length, not, slice_index, count_by};
ghost use Rattle.std.specs.Fmt.{is_char_start};
ghost use Rattle.std.specs.List.{position_or_len, suffix_len};
ghost use Rattle.wit_sources.specs.Lines.{column, is_char_boundary_at, is_line_feed, len_in_line, line_before, line_text};

/// How many line feeds a part of a text has.
pub(crate) fn count_feeds(bytes: &[u8]) -> usize
    ensures value { result ≡ count_by is_line_feed bytes.now }
    ensures within { result ≤ length bytes.now }
{
    let mut feeds = 0;
    for byte in bytes {
        if *byte == b'\n' {
            feeds += 1;
        }
    }
    feeds
}

/// The column at which a position of a text stands in its line, from 1.
pub(crate) fn column(text: &str, offset: usize) -> usize
    requires { offset ≤ length text.now }
    ensures { result ≡ column text.now offset }
{
    let before = &text.as_bytes()[..offset];
    let start = last_line_start(before);
    count_chars(&before[start..]) + 1
}

/// The line in which a position of a text stands.
pub(crate) fn line_at(text: &str, offset: usize) -> &str
    requires { offset ≤ length text.now }
    ensures { result.now ≡ line_text text.now offset }
{
    let (before, after) = text.as_bytes().split_at(offset);
    let start = last_line_start(before);
    let end = offset + first_line_end(after);
    &text[start..end]
}

/// How many bytes stand before a position in its line.
pub(crate) fn offset_in_line(text: &str, offset: usize) -> usize
    requires { offset ≤ length text.now }
    ensures value { result ≡ length (line_before text.now offset) }
    ensures within { result ≤ offset }
{
    let before = &text.as_bytes()[..offset];
    let start = last_line_start(before);
    before[start..].len()
}

/// How many bytes stand between two positions of a text. None where these are past its end or in a character, or where the
/// line ends between them.
pub(crate) fn len_in_line(text: &str, start: usize, end: usize) -> usize
    requires { start ≤ end }
    ensures value { result ≡ len_in_line text.now start end }
    ensures within { result ≤ end }
{
    let bytes = text.as_bytes();
    if !is_char_boundary_at(bytes, start) || !is_char_boundary_at(bytes, end) {
        return 0;
    }
    if bytes[start..end].contains(&b'\n') {
        return 0;
    }
    end - start
}

/// How many characters begin in a part of a text.
pub(crate) fn count_chars(bytes: &[u8]) -> usize
    ensures value { result ≡ count_by is_char_start bytes.now }
    ensures within { result ≤ length bytes.now }
{
    bytes.iter().filter(|byte| is_char_start(**byte)).count()
}

/// Whether a byte is the first of a character.
pub(crate) fn is_char_start(byte: u8) -> bool
    ensures { result ≡ is_char_start byte }
{
    byte < 0x80 || byte >= 0xC0
}

/// Whether a position is in a text or at its end, and in no character.
fn is_char_boundary_at(bytes: &[u8], position: usize) -> bool
    ensures { result ≡ is_char_boundary_at bytes.now position }
{
    match bytes.get(position) {
        Some(byte) => is_char_start(*byte),
        None => position == bytes.len(),
    }
}

/// Where the last line of a text begins: after its last line feed.
fn last_line_start(bytes: &[u8]) -> usize
    ensures value { result ≡ length bytes.now - suffix_len (λ b. not (is_line_feed b)) bytes.now }
    ensures within { result ≤ length bytes.now }
    ensures begins { 0 < result → slice_index bytes.now (result - 1) ≡ 10 }
{
    let mut start = bytes.len();
    while start > 0 && bytes[start - 1] != b'\n' {
        start -= 1;
    }
    start
}

/// Where the first line of a text ends: at its first line feed.
fn first_line_end(bytes: &[u8]) -> usize
    ensures value { result ≡ position_or_len is_line_feed bytes.now }
    ensures within { result ≤ length bytes.now }
    ensures ends { result < length bytes.now → slice_index bytes.now result ≡ 10 }
{
    for (index, byte) in bytes.iter().enumerate() {
        if *byte == b'\n' {
            return index;
        }
    }
    bytes.len()
}
