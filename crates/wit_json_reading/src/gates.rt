//! Spans, docs and feature gates.
ghost use Rattle.json.specs.Value.{value_view};
ghost use Rattle.std.specs.Prelude.{◌≡◌};
ghost use Rattle.wit_json_reading.specs.Gates.{read_contents, read_docs, read_gate_by, read_any_gate, read_place, read_range, read_span, read_stability, read_stable, read_unstable};
ghost use Rattle.wit_json_reading.specs.Reading.{Reads};

use crate::fault::{Expected, ReadError, in_member, instead_of};
use crate::objects::{alone, one_member, pair};
use crate::reader::{ReadJson, only, optional, required};
use json::Value;
use std::alloc::Global;
use wit_data::{Docs, Stability};
use wit_sources::Span;

/// `null` where it is unknown.
impl ReadJson for Span {
    ghost reading = { read_place };

    #[tactic(auto, unfolding(crate::specs::Gates::read_place))]
    fn read_json(alloc: Global, value: &Value<'_>) -> Result<Span, ReadError> {
        if value.is_null() {
            return Ok(Span::unknown());
        }
        range(alloc, value)
    }
}

/// A list of two positions.
#[tactic(auto, unfolding(crate::specs::Gates::read_range))]
fn range(alloc: Global, value: &Value<'_>) -> Result<Span, ReadError>
    ensures { Reads result (read_range (value_view value.now)) }
{
    let (start, end) = pair::<u32, u32>(alloc, value)?;
    if start <= end {
        Ok(Span::new(start, end))
    } else {
        instead_of(alloc, Expected::Span)
    }
}

/// The span of an item, unknown where it is left out.
#[tactic(auto, unfolding(crate::specs::Gates::read_span, crate::specs::Reading::read_or))]
pub fn span(alloc: Global, value: &Value<'_>) -> Result<Span, ReadError>
    ensures { Reads result (read_span (value_view value.now)) }
{
    match optional::<Span>(alloc, value, "span")? {
        Some(span) => Ok(span),
        None => Ok(Span::unknown()),
    }
}

impl ReadJson for Docs {
    ghost reading = { read_contents };

    #[tactic(auto, unfolding(crate::specs::Gates::read_contents))]
    fn read_json(alloc: Global, value: &Value<'_>) -> Result<Docs, ReadError> {
        let contents = alone(alloc, value, "contents")?;
        Ok(Docs {
            contents: Some(contents),
        })
    }
}

/// The docs of an item.
#[tactic(auto, unfolding(crate::specs::Gates::read_docs, crate::specs::Reading::read_or))]
pub fn docs(alloc: Global, value: &Value<'_>) -> Result<Docs, ReadError>
    ensures { Reads result (read_docs (value_view value.now)) }
{
    match optional(alloc, value, "docs")? {
        Some(docs) => Ok(docs),
        None => Ok(Docs::none()),
    }
}

impl ReadJson for Stability {
    ghost reading = { read_any_gate };

    #[tactic(auto, unfolding(crate::specs::Gates::read_any_gate))]
    fn read_json(alloc: Global, value: &Value<'_>) -> Result<Stability, ReadError> {
        if value.is_null() {
            return Ok(Stability::Unknown);
        }
        match one_member(value) {
            Some((name, gate)) => in_member(alloc, read_gate(alloc, name, gate), name),
            None => instead_of(alloc, Expected::Gate),
        }
    }
}

/// The gate of this name.
fn read_gate(alloc: Global, name: &str, value: &Value<'_>) -> Result<Stability, ReadError>
    ensures { Reads result (read_gate_by name.now (value_view value.now)) }
{
    match name {
        "stable" => stable(alloc, value),
        "unstable" => unstable(alloc, value),
        _ => instead_of(alloc, Expected::Gate),
    }
}

#[tactic(auto, unfolding(crate::specs::Gates::read_stable))]
fn stable(alloc: Global, value: &Value<'_>) -> Result<Stability, ReadError>
    ensures { Reads result (read_stable (value_view value.now)) }
{
    only(alloc, value, &["since", "deprecated"])?;
    let since = required(alloc, value, "since")?;
    let deprecated = optional(alloc, value, "deprecated")?;
    Ok(Stability::Stable { since, deprecated })
}

#[tactic(auto, unfolding(crate::specs::Gates::read_unstable))]
fn unstable(alloc: Global, value: &Value<'_>) -> Result<Stability, ReadError>
    ensures { Reads result (read_unstable (value_view value.now)) }
{
    only(alloc, value, &["feature", "deprecated"])?;
    let feature = required(alloc, value, "feature")?;
    let deprecated = optional(alloc, value, "deprecated")?;
    Ok(Stability::Unstable {
        feature,
        deprecated,
    })
}

/// The gate of an item.
#[tactic(auto, unfolding(crate::specs::Gates::read_stability, crate::specs::Reading::read_or))]
pub(crate) fn stability(alloc: Global, value: &Value<'_>) -> Result<Stability, ReadError>
    ensures { Reads result (read_stability (value_view value.now)) }
{
    match optional(alloc, value, "stability")? {
        Some(gate) => Ok(gate),
        None => Ok(Stability::Unknown),
    }
}
