//! Refusals as texts.
ghost use Rattle.std.specs.Prelude.{◌≡◌, IfOk, string_bytes};
ghost use Rattle.std.specs.List.{flat_map};
ghost use Rattle.wit_json_commands.specs.Refusals.{place_lines, text_of_error, way_lines};
ghost use Rattle.wit_ways.specs.declared.arrow.Arrow.{Arrow};

use std::alloc::{AllocError, Global};
use wit_data::{SourceMap, Span, Text};
use wit_graph_data::ResolveError;
use wit_ways::{Arrow, way_names};

/// An error with the lines in which spans begin, its way, what was asked, and which document says more of its number.
pub fn text_of_error(
    alloc: Global,
    files: &SourceMap,
    spans: &[Span],
    asked: &str,
    way: &[Arrow],
    error: &ResolveError,
) -> Result<Text, AllocError>
    ensures { IfOk result (λ text.
        text ≡ text_of_error files.now.files spans.now asked.now way.now error.now) }
{
    let places = places_text(alloc, files, spans)?;
    let shown = way_text(alloc, files, way)?;
    let number = error.number();
    let text = format!(in alloc;
        "{error}{places}{shown}\n      = {asked}\n      = {number} in docs/REFUSALS.md"
    )?;
    Ok(Text::from_string(text))
}

/// Where spans begin, each on lines of its own.
fn places_text(alloc: Global, files: &SourceMap, spans: &[Span]) -> Result<String, AllocError>
    ensures { IfOk result
        (λ text. string_bytes text ≡ flat_map (place_lines files.now.files) spans.now) }
{
    let mut text = String::new(alloc);
    for span in spans {
        let line = place_text(alloc, files, *span)?;
        text.push_str(&line)?;
    }
    Ok(text)
}

/// Where a span begins, on lines of their own; nothing where it is unknown or in no file.
fn place_text(alloc: Global, files: &SourceMap, span: Span) -> Result<String, AllocError>
    ensures { IfOk result (λ text. string_bytes text ≡ place_lines files.now.files span) }
{
    match files.show_span(alloc, span)? {
        Some(shown) => format!(in alloc; "\n{shown}"),
        None => Ok(String::new(alloc)),
    }
}

/// `way: A -> B -> .. -> C` on a line of its own and the line of each step, or nothing where there is no way.
fn way_text(alloc: Global, files: &SourceMap, way: &[Arrow]) -> Result<String, AllocError>
    ensures { IfOk result (λ text. string_bytes text ≡ way_lines files.now.files way.now) }
{
    if way.is_empty() {
        return Ok(String::new(alloc));
    }
    let names = way_names(alloc, way)?;
    let lines = lines_text(alloc, files, way)?;
    format!(in alloc; "\n      = way: {names}{lines}")
}

/// The lines of the steps of a way.
fn lines_text(alloc: Global, files: &SourceMap, way: &[Arrow]) -> Result<String, AllocError>
    ensures { IfOk result
        (λ text. string_bytes text
        ≡ flat_map (λ (step : Arrow). place_lines files.now.files step.span) way.now) }
{
    let mut text = String::new(alloc);
    for arrow in way {
        let line = place_text(alloc, files, arrow.span)?;
        text.push_str(&line)?;
    }
    Ok(text)
}
