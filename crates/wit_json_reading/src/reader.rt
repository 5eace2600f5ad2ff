//! How things are read: objects by the names of their members, and lists.
ghost use Rattle.std.specs.Prelude.{◌≡◌, map, bytes_eq};
ghost use Rattle.std.specs.List.{list_any};
ghost use Rattle.json.specs.Json.{Json};
ghost use Rattle.json.specs.Value.{value_view};
ghost use Rattle.wit_json_reading.specs.Reading.{Reading, Reads, read_list, only, read_optional, read_required};
ghost use Rattle.wit_json_reading.specs.steps.ByClosures.{ReadsBy};

use crate::fault::{Expected, ReadError, in_item, in_member, instead_of};
use json::Value;
use std::alloc::Global;
use wit_values::Items;

/// What is read from a JSON value.
pub trait ReadJson: Sized {
    /// What a value reads as.
    ghost reading: { Json → Reading Self };

    /// Reads a value. Its error is the fault, or want of memory.
    fn read_json(alloc: Global, value: &Value<'_>) -> Result<Self, ReadError>
        ensures { Reads result (reading (value_view value.now)) };
}

/// The member of a name, which has to be there.
pub fn required<T: ReadJson + Drop>(
    alloc: Global,
    value: &Value<'_>,
    name: &str,
) -> Result<T, ReadError>
    ensures { Reads result (read_required T.reading name.now (value_view value.now)) }
{
    required_by(alloc, value, name, |it| T::read_json(alloc, it))
}

/// The member of a name, which has to be there, as a closure reads it.
pub(crate) fn required_by<T: Drop, F: Fn(&Value<'_>) -> Result<T, ReadError>>(
    alloc: Global,
    value: &Value<'_>,
    name: &str,
    read: F,
) -> Result<T, ReadError>
    requires { F.IsAlwaysCallable read }
    ensures { (f : Json → Reading T) → ReadsBy F.Fn read f
        → Reads result (read_required f name.now (value_view value.now)) }
{
    match value.get(name) {
        Some(value) => in_member(alloc, read(value), name),
        None => in_member(alloc, instead_of(alloc, Expected::Member), name),
    }
}

/// The member of a name, where it is there.
pub fn optional<T: ReadJson + Drop>(
    alloc: Global,
    value: &Value<'_>,
    name: &str,
) -> Result<Option<T>, ReadError>
    ensures { Reads result (read_optional T.reading name.now (value_view value.now)) }
{
    match value.get(name) {
        Some(value) => Ok(Some(in_member(alloc, T::read_json(alloc, value), name)?)),
        None => Ok(None),
    }
}

/// Finds the first member whose name isn't known, or stands for the second time.
pub fn only(alloc: Global, value: &Value<'_>, known: &[&str]) -> Result<(), ReadError>
    ensures { Reads result (only (map (λ name. name.now) known.now) (value_view value.now)) }
{
    let Value::Object(members) = value else {
        return instead_of(alloc, Expected::Object);
    };
    for index in 0..members.len() {
        let name = members[index].0;
        if is_among(&members[..index], name) {
            return in_member(alloc, instead_of(alloc, Expected::NoSecondMember), name);
        }
        if !is_one_of(known, name) {
            return in_member(alloc, instead_of(alloc, Expected::NoMember), name);
        }
    }
    Ok(())
}

/// Whether one of some members has a name.
fn is_among(members: &[(&str, Value<'_>)], name: &str) -> bool
    ensures { result ≡ list_any (λ member. bytes_eq name.now member.0.now) members.now }
{
    members.iter().any(|member| name == member.0)
}

/// Whether a name is one of some names.
fn is_one_of(names: &[&str], name: &str) -> bool
    ensures { result ≡ list_any (λ it. bytes_eq name.now it.now) names.now }
{
    names.iter().any(|it| name == *it)
}

/// A list.
pub fn list<T: ReadJson + Drop>(alloc: Global, value: &Value<'_>) -> Result<Items<T>, ReadError>
    ensures { Reads result (read_list T.reading (value_view value.now)) }
{
    list_by(alloc, value, |it| T::read_json(alloc, it))
}

/// A list of what a closure reads.
pub(crate) fn list_by<T: Drop, F: Fn(&Value<'_>) -> Result<T, ReadError>>(
    alloc: Global,
    value: &Value<'_>,
    read: F,
) -> Result<Items<T>, ReadError>
    requires { F.IsAlwaysCallable read }
    ensures { (f : Json → Reading T) → ReadsBy F.Fn read f
        → Reads result (read_list f (value_view value.now)) }
{
    let Value::Array(items) = value else {
        return instead_of(alloc, Expected::List);
    };
    let mut things = Items::new(alloc);
    for item in items {
        let index = things.len();
        let thing = in_item(read(item), index)?;
        things.push(thing)?;
    }
    Ok(things)
}
