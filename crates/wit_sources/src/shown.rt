//! Lines as they are shown: each with its number, and a mark under a part of it.
ghost use Rattle.std.specs.Prelude.{◌≡◌, ◌≤◌, ◌<◌, ◌++◌, Some, IfOk, length, replicate, string_bytes, take};
ghost use Rattle.std.specs.Str.{IsCharBoundary};
ghost use Rattle.wit_sources.specs.Shown.{dots_text, in_four, mark_text, mark_under, marked_line, shown_len, shown_text, start_up_to};

use crate::lines::{count_chars, is_char_start};
use std::alloc::{AllocError, Global};
use std::fmt;

/// A line with its number, and a mark under what stands between two positions in it, given as the bytes before them; of a
/// line of more than 500 bytes its beginning. The only error is want of memory.
pub fn marked_line(
    alloc: Global,
    number: usize,
    line: &str,
    start: usize,
    end: usize,
) -> Result<String, AllocError>
    requires { start ≤ end }
    ensures { IfOk result (λ text. string_bytes text ≡ marked_line number line.now start end) }
{
    let number = InFour(number);
    let shown = beginning_of(line);
    let mark = mark_under(line, start, end);
    format!(in alloc; "      |\n {number} | {shown}\n      | {mark}")
}

/// What is shown of a line.
fn beginning_of(line: &str) -> Beginning<'_>
    ensures { result.text.now ++ result.dots.now ≡ shown_text line.now }
{
    let len = shown_len(line);
    Beginning {
        text: first_bytes(line, len),
        dots: dots_behind(line, len),
    }
}

/// What stands behind the first so many bytes of a line, where it isn't shown whole.
fn dots_behind(line: &str, len: usize) -> &'static str
    ensures { result.now ≡ dots_text len line.now }
{
    if len < line.len() { " .." } else { "" }
}

/// The mark under what is shown of what stands between two positions of a line.
fn mark_under(line: &str, start: usize, end: usize) -> Mark
    requires { start ≤ end }
    ensures { mark_text result.spaces result.dashes ≡ mark_under line.now start end }
{
    let (bytes, len) = (line.as_bytes(), shown_len(line));
    let (start, end) = (start.min(len), end.min(len));
    Mark {
        spaces: count_chars(&bytes[..start]),
        dashes: count_chars(&bytes[start..end]).saturating_sub(1),
    }
}

/// The longest line that is shown whole, in bytes.
pub(crate) const LONGEST_LINE: usize = 500;

/// How many bytes of a line are shown: all, or of more than 500 those of the characters that 500 bytes hold.
fn shown_len(line: &str) -> usize
    ensures value { result ≡ shown_len line.now }
    ensures within { result ≤ length line.now }
    ensures boundary { 0 < result → IsCharBoundary line.now result }
{
    if line.len() <= LONGEST_LINE {
        return line.len();
    }
    start_up_to(line.as_bytes(), LONGEST_LINE)
}

/// The last position up to this one, where it isn't the first of all, at which a character begins.
fn start_up_to(bytes: &[u8], position: usize) -> usize
    requires { position < length bytes.now }
    ensures value { result ≡ start_up_to position bytes.now }
    ensures within { result ≤ position }
    ensures boundary { 0 < result → IsCharBoundary bytes.now result }
{
    let mut start = position;
    while start > 0 && !is_char_start(bytes[start]) {
        start -= 1;
    }
    start
}

/// The first so many bytes of a line.
fn first_bytes(line: &str, len: usize) -> &str
    requires { 0 < len → IsCharBoundary line.now len }
    ensures { result.now ≡ take len line.now }
{
    if len == 0 {
        return "";
    }
    &line[..len]
}

/// The beginning of a line, or all of it, and what stands behind it.
#[derive(Drop)]
struct Beginning<'a> {
    text: &'a str,
    dots: &'a str,
}

impl<'a> fmt::Display for Beginning<'a> {
    ghost output = { λ b. Some (b.text.now ++ b.dots.now) };

    fn fmt<W: fmt::Write>(&self, f: &mut fmt::Formatter<W>) -> fmt::Result {
        let (text, dots) = (self.text, self.dots);
        write!(f, "{text}{dots}")
    }
}

/// A `^` behind so many spaces and before so many dashes.
#[derive(Drop)]
struct Mark {
    spaces: usize,
    dashes: usize,
}

impl fmt::Display for Mark {
    ghost output = { λ m. Some (mark_text m.spaces m.dashes) };

    fn fmt<W: fmt::Write>(&self, f: &mut fmt::Formatter<W>) -> fmt::Result {
        let (spaces, dashes) = (Spaces(self.spaces), Dashes(self.dashes));
        write!(f, "{spaces}^{dashes}")
    }
}

/// So many spaces.
#[derive(Drop)]
struct Spaces(usize);

impl fmt::Display for Spaces {
    ghost output = { λ s. Some (replicate s.0 32) };

    fn fmt<W: fmt::Write>(&self, f: &mut fmt::Formatter<W>) -> fmt::Result {
        for _i in 0..self.0 {
            write!(f, " ")?;
        }
        Ok(())
    }
}

/// So many dashes.
#[derive(Drop)]
struct Dashes(usize);

impl fmt::Display for Dashes {
    ghost output = { λ s. Some (replicate s.0 45) };

    fn fmt<W: fmt::Write>(&self, f: &mut fmt::Formatter<W>) -> fmt::Result {
        for _i in 0..self.0 {
            write!(f, "-")?;
        }
        Ok(())
    }
}

/// A number in four places.
#[derive(Drop)]
struct InFour(usize);

impl fmt::Display for InFour {
    ghost output = { λ n. Some (in_four n.0) };

    fn fmt<W: fmt::Write>(&self, f: &mut fmt::Formatter<W>) -> fmt::Result {
        let number = self.0;
        write!(f, "{number:4}")
    }
}
