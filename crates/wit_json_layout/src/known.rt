//! A value without the members that its layout lacks.
ghost use Rattle.std.specs.Prelude.{◌≡◌, IfOk};
ghost use Rattle.json.specs.Value.{items_view, members_view, value_view};
ghost use Rattle.wit_json_layout.specs.Known.{known_items, known_members, known_part};

use crate::layout::Layout;
use json::Value;
use std::alloc::{AllocError, Global};

/// A value without the members that its layout lacks, at any depth. The only error is want of memory.
#[cycle(known)]
pub fn known_part<'a>(
    alloc: Global,
    layout: Layout,
    value: &Value<'a>,
) -> Result<Value<'a>, AllocError>
    ensures { IfOk result (λ known. value_view known ≡ known_part layout (value_view value.now)) }
{
    match value {
        Value::Null => Ok(Value::Null),
        Value::Bool(truth) => Ok(Value::Bool(*truth)),
        Value::Number(text) => Ok(Value::Number(text)),
        Value::String(text) => Ok(Value::String(text)),
        Value::Array(items) => Ok(Value::Array(known_items(alloc, layout, items)?)),
        Value::Object(members) => Ok(Value::Object(known_members(alloc, layout, members)?)),
    }
}

/// The items of a list, each without what its layout lacks.
#[cycle(known)]
fn known_items<'a>(
    alloc: Global,
    layout: Layout,
    items: &Vec<Value<'a>>,
) -> Result<Vec<Value<'a>>, AllocError>
    ensures { IfOk result
        (λ known. items_view known.items ≡ known_items layout (items_view items.now.items)) }
{
    let mut known = Vec::with_capacity(alloc, items.len())?;
    for item in items {
        let part = known_part(alloc, layout, item)?;
        known.push(part)?;
    }
    Ok(known)
}

/// The members of an object that its layout has, each without what its own layout lacks.
#[cycle(known)]
fn known_members<'a>(
    alloc: Global,
    layout: Layout,
    members: &Vec<(&'a str, Value<'a>)>,
) -> Result<Vec<(&'a str, Value<'a>)>, AllocError>
    ensures { IfOk result
        (λ known. members_view known.items
        ≡ known_members layout (members_view members.now.items)) }
{
    let mut known = Vec::with_capacity(alloc, members.len())?;
    for member in members {
        if let Some(inner) = layout.part(member.0) {
            let part = known_part(alloc, inner, &member.1)?;
            known.push((member.0, part))?;
        }
    }
    Ok(known)
}
