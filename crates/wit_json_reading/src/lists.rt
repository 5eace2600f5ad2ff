//! Lists of things that lack a member.
ghost use Rattle.json.specs.Value.{value_view};
ghost use Rattle.wit_json_reading.specs.Reading.{Reads, read_list, read_required, read_leaving_out};

use crate::fault::{Expected, ReadError, in_member, instead_of};
use crate::reader::{ReadJson, list_by, required_by};
use json::Value;
use std::alloc::Global;
use wit_values::Items;

/// The list of a name, which has to be there, of things of which none has a member of another name.
pub(crate) fn required_without<T: ReadJson + Drop>(
    alloc: Global,
    value: &Value<'_>,
    name: &str,
    left_out: &str,
) -> Result<Items<T>, ReadError>
    ensures { Reads result
        (read_required (read_list (read_leaving_out left_out.now T.reading)) name.now
        (value_view value.now)) }
{
    required_by(alloc, value, name, |list| {
        list_by(alloc, list, |it| read_without(alloc, it, left_out))
    })
}

/// A thing that has no member of this name.
fn read_without<T: ReadJson + Drop>(
    alloc: Global,
    value: &Value<'_>,
    name: &str,
) -> Result<T, ReadError>
    ensures { Reads result (read_leaving_out name.now T.reading (value_view value.now)) }
{
    if value.get(name).is_some() {
        return in_member(alloc, instead_of(alloc, Expected::NoMember), name);
    }
    T::read_json(alloc, value)
}
