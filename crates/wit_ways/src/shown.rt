//! Ways as texts.
ghost use Rattle.std.specs.Prelude.{◌≡◌, IfOk, string_bytes, ◌++◌, codes};
ghost use Rattle.std.specs.List.{flat_map};
ghost use Rattle.wit_ways.specs.Ways.{way_names};
ghost use Rattle.wit_ways.specs.declared.arrow.Arrow.{Arrow};

use crate::arrow::Arrow;
use std::alloc::{AllocError, Global};

/// `A -> B -> .. -> C`: what a way goes by. Nothing where there is no way.
pub fn way_names(alloc: Global, way: &[Arrow]) -> Result<String, AllocError>
    ensures { IfOk result (λ text. string_bytes text ≡ way_names way.now) }
{
    let Some((first, _)) = way.split_first() else {
        return Ok(String::new(alloc));
    };
    let from = &first.from;
    let steps = steps_text(alloc, way)?;
    format!(in alloc; "{from}{steps}")
}

/// ` -> A -> B`, where arrows lead.
fn steps_text(alloc: Global, way: &[Arrow]) -> Result<String, AllocError>
    ensures { IfOk result (λ text.
        string_bytes text ≡ flat_map (λ (step : Arrow). codes " -> " ++ step.to) way.now) }
{
    let mut text = String::new(alloc);
    for arrow in way {
        text.push_str(" -> ")?;
        text.push_str(arrow.to.as_str())?;
    }
    Ok(text)
}
