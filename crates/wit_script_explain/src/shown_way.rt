//! Ways of refusals with their lines.
ghost use Rattle.std.specs.Prelude.{◌≡◌, IfOk, string_bytes};
ghost use Rattle.std.specs.List.{flat_map};
ghost use Rattle.wit_script_explain.specs.Ways.{way_text, way_line};

use crate::desk::TrackedGraph;
use crate::lines::ScriptLines;
use crate::place::span_place;
use crate::shown::place_text;
use std::alloc::{AllocError, Global};
use wit_ways::{Arrow, way_names};

/// `way: A -> B -> .. -> C` and the line of each step, or nothing where there is no way.
pub fn way_text(
    alloc: Global,
    script: &ScriptLines,
    tracked: &TrackedGraph,
    way: &[Arrow],
) -> Result<String, AllocError>
    ensures { IfOk result (λ text. string_bytes text ≡ way_text script.now tracked.now way.now) }
{
    if way.is_empty() {
        return Ok(String::new(alloc));
    }
    let names = way_names(alloc, way)?;
    let lines = lines_text(alloc, script, tracked, way)?;
    format!(in alloc; "      = way: {names}\n{lines}")
}

/// The lines of arrows.
fn lines_text(
    alloc: Global,
    script: &ScriptLines,
    tracked: &TrackedGraph,
    way: &[Arrow],
) -> Result<String, AllocError>
    ensures { IfOk result
        (λ text. string_bytes text ≡ flat_map (way_line script.now tracked.now) way.now) }
{
    let mut text = String::new(alloc);
    for arrow in way {
        let shown = line_text(alloc, script, tracked, arrow)?;
        text.push_str(&shown)?;
    }
    Ok(text)
}

/// The line of an arrow.
fn line_text(
    alloc: Global,
    script: &ScriptLines,
    tracked: &TrackedGraph,
    arrow: &Arrow,
) -> Result<String, AllocError>
    ensures { IfOk result (λ text. string_bytes text ≡ way_line script.now tracked.now arrow.now) }
{
    match span_place(script, tracked, arrow.span) {
        Some((index, path, first)) => place_text(alloc, script, index, path, first),
        None => Ok(String::new(alloc)),
    }
}
