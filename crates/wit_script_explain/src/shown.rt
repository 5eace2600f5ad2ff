//! A line of a script as it is shown: where it stands, its text, and a mark under what it says.
ghost use Rattle.std.specs.Prelude.{◌≡◌, IfOk, string_bytes};
ghost use Rattle.wit_script_explain.specs.Shown.{command_text, noted_text, file_line_text, snippet_text};
ghost use Rattle.wit_script_explain.specs.steps.Parts.{return_note};

use crate::lines::ScriptLines;
use std::alloc::{AllocError, Global};
use wit_script_lines::content_range;
use wit_sources::{Location, marked_line};

/// The line at which something is that stands in the file of a package: its index in the script, the name of that file, and
/// the index of the file's first line. It is told by its number in the script, and in brackets by the file's name, its number
/// in the file and the column at which it begins to say something.
pub fn place_text(
    alloc: Global,
    script: &ScriptLines,
    index: usize,
    path: &str,
    first: usize,
) -> Result<String, AllocError>
    ensures { IfOk result
        (λ text. string_bytes text ≡ file_line_text script.now (index, path.now, first)) }
{
    let Some(line) = script.line_at(index) else {
        return Ok(String::new(alloc));
    };
    let (number, own) = (index + 1, index.saturating_sub(first) + 1);
    let column = content_range(line).0 + 1;
    let location = Location {
        path,
        line: own,
        column,
    };
    let shown = noted_snippet(alloc, number, line)?;
    format!(in alloc; "     --> line {number} ({location})\n{shown}")
}

/// The line of a command, by its index in the script.
pub fn command_text(alloc: Global, script: &ScriptLines, index: usize) -> Result<String, AllocError>
    ensures { IfOk result (λ text. string_bytes text ≡ command_text script.now index) }
{
    let Some(line) = script.line_at(index) else {
        return Ok(String::new(alloc));
    };
    let number = index + 1;
    let shown = noted_snippet(alloc, number, line)?;
    format!(in alloc; "     --> line {number}\n{shown}")
}

/// A line as it is shown, and under it that a carriage return ends it, where it does.
fn noted_snippet(alloc: Global, number: usize, line: &str) -> Result<String, AllocError>
    ensures { IfOk result (λ text. string_bytes text ≡ noted_text number line.now) }
{
    let mut text = snippet(alloc, number, line)?;
    text.push_str(return_note(line))?;
    Ok(text)
}

/// What is said under a line that a carriage return ends, which can't be seen there.
fn return_note(line: &str) -> &'static str
    ensures { result.now ≡ return_note line.now }
{
    match line.as_bytes().last() {
        Some(b) if *b == b'\r' => {
            "      = a carriage return ends it: lines end with a line feed alone\n"
        }
        _ => "",
    }
}

/// A line with its number, and a mark under what it says; of a line over 500 bytes its beginning.
pub fn snippet(alloc: Global, number: usize, line: &str) -> Result<String, AllocError>
    ensures { IfOk result (λ text. string_bytes text ≡ snippet_text number line.now) }
{
    let (start, end) = content_range(line);
    let marked = marked_line(alloc, number, line, start, end)?;
    format!(in alloc; "{marked}\n")
}
