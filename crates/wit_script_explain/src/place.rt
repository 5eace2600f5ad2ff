//! Where in a script a span of the sources of its packages stands.
ghost use Rattle.std.specs.Option.{option_map};
ghost use Rattle.std.specs.Prelude.{◌≡◌, ◌≤◌, IfOk, count_by, length, take};
ghost use Rattle.wit_script_explain.specs.Places.{begins, begins_at, defined_line, place_at, span_place};
ghost use Rattle.wit_script_lines.specs.Statement.{statement_of};
ghost use Rattle.wit_sources.specs.Lines.{is_line_feed};
ghost use Rattle.wit_sources.specs.SourceMap.{files_of};

use crate::desk::TrackedGraph;
use crate::lines::ScriptLines;
use std::alloc::{AllocError, Global};
use wit_data::{PackageName, SourceMap, Span};
use wit_script_lines::{LineFault, Statement, read_line};

/// The line of a span: its index among the lines of the script, the name of the file into which it goes, and the index of
/// that file's first line. None where the span is unknown or in no file.
pub fn span_place<'a>(
    script: &ScriptLines,
    tracked: &'a TrackedGraph,
    span: Span,
) -> Option<(usize, &'a str, usize)>
    ensures { option_map (λ p. (p.0, p.1.now, p.2)) result
        ≡ span_place script.now tracked.now span }
{
    if !span.is_known() {
        return None;
    }
    let position = span.start() as usize;
    let source_map = tracked.resolve.source_map();
    let (path, start, line) = place_at(source_map, tracked.file_starts.as_slice(), position)?;
    let own = script.filed.as_slice().get(start..)?;
    let index = own.get(line)?;
    let first = own.first()?;
    Some((*index, path, *first))
}

/// Where a position of files stands, of which each begins with the script's line at this place of those that go into files:
/// the name of the file, the place of its first line, and its line in the file, from 0. A file takes its length plus one
/// positions.
fn place_at<'a>(
    source_map: &'a SourceMap,
    file_starts: &[usize],
    position: usize,
) -> Option<(&'a str, usize, usize)>
    ensures { option_map (λ p. (p.0.now, p.1, p.2)) result
        ≡ place_at (files_of source_map.now.files) file_starts.now position }
{
    let mut rest = position;
    let mut left = file_starts;
    for (path, contents) in source_map.files() {
        let (start, others) = left.split_first()?;
        if rest <= contents.len() {
            return Some((path, *start, line_feeds(contents, rest)));
        }
        rest -= contents.len() + 1;
        left = others;
    }
    None
}

/// How many line feeds a text has before a position.
fn line_feeds(text: &str, position: usize) -> usize
    requires { position ≤ length text.now }
    ensures { result ≡ count_by is_line_feed (take position text.now) }
{
    let before = &text.as_bytes()[..position];
    before.iter().filter(|byte| **byte == b'\n').count()
}

/// The line that begins the package of a name, by its index, among those that begin packages at these places. The only
/// error is want of memory.
pub fn defined_line(
    alloc: Global,
    script: &ScriptLines,
    places: &[usize],
    name: &PackageName,
) -> Result<Option<usize>, AllocError>
    ensures { IfOk result (λ found. found ≡ defined_line script.now name.now places.now) }
{
    for place in places {
        if let Some(index) = begins_at(alloc, script, *place, name)? {
            return Ok(Some(index));
        }
    }
    Ok(None)
}

/// The line at a place of those that go into files, where it begins the package of a name.
fn begins_at(
    alloc: Global,
    script: &ScriptLines,
    place: usize,
    name: &PackageName,
) -> Result<Option<usize>, AllocError>
    ensures { IfOk result (λ found. found ≡ begins_at script.now name.now place) }
{
    let Some(index) = script.filed.get(place) else {
        return Ok(None);
    };
    let Some(line) = script.lines.get(*index) else {
        return Ok(None);
    };
    Ok(begins(alloc, line.as_str(), name)?.then_some(*index))
}

/// Whether a line begins the package of a name.
fn begins(alloc: Global, line: &str, name: &PackageName) -> Result<bool, AllocError>
    ensures { IfOk result (λ answer. answer ≡ begins name.now (statement_of line.now)) }
{
    match read_line(alloc, line) {
        Ok(Some(Statement::Package(begun))) => Ok(begun == *name),
        Ok(_) => Ok(false),
        Err(LineFault::NotUnderstood) => Ok(false),
        Err(LineFault::OutOfMemory) => Err(AllocError),
    }
}
