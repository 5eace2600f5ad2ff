//! Values with a name or with parts: variants, pairs, objects of one member.
ghost use Rattle.std.specs.Prelude.{◌≡◌};
ghost use Rattle.std.specs.Option.{option_map};
ghost use Rattle.json.specs.Value.{value_view};
ghost use Rattle.wit_json_reading.specs.Objects.{alone, one_member, read_pair, two_items};
ghost use Rattle.wit_json_reading.specs.Reading.{Reads};

use crate::fault::{Expected, ReadError, in_item, instead_of};
use crate::reader::{ReadJson, only, required};
use json::Value;
use std::alloc::Global;

/// The one member of an object that has no other.
pub fn one_member<'v, 'a>(value: &'v Value<'a>) -> Option<(&'a str, &'v Value<'a>)>
    ensures { option_map (λ member. (member.0.now, value_view member.1.now)) result
        ≡ one_member (value_view value.now) }
{
    let Value::Object(members) = value else {
        return None;
    };
    if members.len() != 1 {
        return None;
    }
    let member = &members[0];
    Some((member.0, &member.1))
}

/// What an object of one member alone has under its name.
pub fn alone<T: ReadJson + Drop>(
    alloc: Global,
    value: &Value<'_>,
    name: &str,
) -> Result<T, ReadError>
    ensures { Reads result (alone T.reading name.now (value_view value.now)) }
{
    only(alloc, value, &[name])?;
    required(alloc, value, name)
}

/// The two items of a list that has no other.
fn two_items<'v, 'a>(value: &'v Value<'a>) -> Option<(&'v Value<'a>, &'v Value<'a>)>
    ensures { option_map (λ items. (value_view items.0.now, value_view items.1.now)) result
        ≡ two_items (value_view value.now) }
{
    let Value::Array(items) = value else {
        return None;
    };
    if items.len() != 2 {
        return None;
    }
    Some((&items[0], &items[1]))
}

/// A list of two values.
pub fn pair<A: ReadJson + Drop, B: ReadJson + Drop>(
    alloc: Global,
    value: &Value<'_>,
) -> Result<(A, B), ReadError>
    ensures { Reads result (read_pair A.reading B.reading (value_view value.now)) }
{
    match two_items(value) {
        Some((first, second)) => {
            let first = in_item(A::read_json(alloc, first), 0)?;
            let second = in_item(B::read_json(alloc, second), 1)?;
            Ok((first, second))
        }
        None => instead_of(alloc, Expected::Pair),
    }
}
