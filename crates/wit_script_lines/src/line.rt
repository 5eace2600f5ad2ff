//! The lines of a script, and the tokens of a line.
ghost use Rattle.std.specs.Prelude.{◌≡◌, ◌≤◌, ◌<◌, ◌==◌, map, length, IfOk};
ghost use Rattle.std.specs.List.{slice_split};
ghost use Rattle.wit_script_lines.specs.Line.{tokens_of, lines_of, content_start_of, content_end_of, is_comment};
ghost use Rattle.wit_script_lines.specs.steps.Parts.{trimmed_len_of};

use std::alloc::{AllocError, Global};

/// The parts of a text between occurrences of an ASCII character. The only error is want of memory.
///
/// (A `collect` asks for room for some of the parts at once, and goes on without it where that is refused.)
pub(crate) fn parts_between<'a>(
    alloc: Global,
    text: &'a str,
    mark: char,
) -> Result<Vec<&'a str>, AllocError>
    requires { mark < 128 }
    ensures { IfOk result (λ v. map (λ x. x.now) v.items ≡ slice_split (λ b. b == mark) text.now) }
{
    let mut parts = Vec::new(alloc);
    for part in text.split(mark) {
        parts.push(part)?;
    }
    Ok(parts)
}

/// The lines of a text: its parts between newlines, so that a text which ends with a newline has an
/// empty last line. The only error is want of memory.
pub fn lines<'a>(alloc: Global, text: &'a str) -> Result<Vec<&'a str>, AllocError>
    ensures { IfOk result (λ v. map (λ x. x.now) v.items ≡ lines_of text.now) }
{
    parts_between(alloc, text, '\n')
}

/// The tokens of a line: its parts between spaces that are not empty. The only error is want of memory.
pub fn tokens<'a>(alloc: Global, line: &'a str) -> Result<Vec<&'a str>, AllocError>
    ensures { IfOk result (λ v. map (λ x. x.now) v.items ≡ tokens_of line.now) }
{
    let mut found = Vec::new(alloc);
    for part in line.split(' ') {
        if !part.is_empty() {
            found.push(part)?;
        }
    }
    Ok(found)
}

/// Whether a line whose first token this is is a comment: the token begins with `#`.
pub fn is_comment(token: &str) -> bool
    ensures { result ≡ is_comment token.now }
{
    token.as_bytes().first() == Some(&b'#')
}

/// Where what a line says begins and ends, in bytes from 0: at its first byte that isn't a space, and
/// after its last. In a line of spaces alone both are its length.
pub fn content_range(line: &str) -> (usize, usize)
    ensures start { result.0 ≡ content_start_of line.now }
    ensures end { result.1 ≡ content_end_of line.now }
    ensures ordered { result.0 ≤ result.1 }
    ensures within { result.1 ≤ length line.now }
{
    let start = leading_spaces(line);
    let end = trimmed_len(line).max(start);
    (start, end)
}

/// How many spaces lead a line.
fn leading_spaces(line: &str) -> usize
    ensures value { result ≡ content_start_of line.now }
    ensures within { result ≤ length line.now }
{
    for (index, byte) in line.as_bytes().iter().enumerate() {
        if *byte != b' ' {
            return index;
        }
    }
    line.len()
}

/// How many bytes a line has without the spaces at its end.
fn trimmed_len(line: &str) -> usize
    ensures value { result ≡ trimmed_len_of line.now }
    ensures within { result ≤ length line.now }
{
    let bytes = line.as_bytes();
    let mut end = bytes.len();
    while end > 0 && bytes[end - 1] == b' ' {
        end -= 1;
    }
    end
}
