//! Why a script isn't understood, and at which line.
ghost use Rattle.std.specs.Prelude.{◌≡◌, IfOk, List, ℕ, string_bytes};
ghost use Rattle.wit_script_explain.specs.steps.Parts.{misread_text};

use crate::lines::ScriptLines;
use crate::reason::reason;
use crate::shown::snippet;
use std::alloc::{AllocError, Global};

/// `line N: REASON`, and the line with a mark, for the line of an index, where the line of a number isn't understood. The
/// only error is want of memory.
pub fn misread_text(
    alloc: Global,
    script: &ScriptLines,
    number: usize,
    index: usize,
) -> Result<String, AllocError>
    ensures { IfOk result
        (λ text. (reason : List ℕ) × (string_bytes text ≡ misread_text script.now index reason)) }
{
    let reason = reason(alloc, script, number.saturating_sub(1), index)?;
    reason_text(alloc, script, index, reason.as_str())
}

/// The same with this reason.
fn reason_text(
    alloc: Global,
    script: &ScriptLines,
    index: usize,
    reason: &str,
) -> Result<String, AllocError>
    ensures { IfOk result (λ text. string_bytes text ≡ misread_text script.now index reason.now) }
{
    let Some(line) = script.line_at(index) else {
        return Ok(String::new(alloc));
    };
    let number = index + 1;
    let snippet = snippet(alloc, number, line)?;
    format!(in alloc; "line {number}: {reason}\n{snippet}")
}
