//! What the details of a graph say of its things.
ghost use Rattle.std.specs.Prelude.{◌≡◌, ◌<◌, ℕ, IfOk, bytes_eq, length, List};
ghost use Rattle.json.specs.Json.{Json};
ghost use Rattle.json.specs.Value.{value_view};
ghost use Rattle.wit_json.specs.Worlds.{entry_name};
ghost use Rattle.wit_json_reading.specs.Reading.{Reading, read_required, under};
ghost use Rattle.wit_json_reading.specs.declared.fault.Step.TheVariants.{Member};
ghost use Rattle.wit_json_graphs.specs.Details.{list_with, table_with, item_with};
ghost use Rattle.wit_json_graphs.specs.steps.Completes.{Completes};
ghost use Rattle.wit_json_graphs.specs.steps.Parts.{with_entry, with_item, with_named, with_parts};

use json::Value;
use std::alloc::{AllocError, Global};
use wit_data::{Items, Names, Table, WorldItem, WorldKey};
use wit_json::EntryName;
use wit_json_reading::{Expected, ReadError, in_item, in_member, instead_of};

/// What takes details that stand beside the layout.
pub trait ReadDetails: Sized {
    /// It with what a value says of it.
    ghost detailed: { Self → Json → Reading Self };

    /// Reads a value. Its error is the fault, or want of memory; of what it is then nothing is said.
    fn read_details(&mut self, alloc: Global, value: &Value<'_>) -> Result<(), ReadError>
        ensures { Completes result (detailed self.old (value_view value.now)) self.new };
}

/// Reads the details under the name of a member, which has to be there.
pub(crate) fn required_details<T: ReadDetails>(
    alloc: Global,
    value: &Value<'_>,
    name: &str,
    thing: &mut T,
) -> Result<(), ReadError>
    ensures { Completes result
        (read_required (T.detailed thing.old) name.now (value_view value.now)) thing.new }
{
    match value.get(name) {
        Some(details) => member_details(alloc, details, name, thing),
        None => in_member(alloc, instead_of(alloc, Expected::Member), name),
    }
}

/// Reads the details that the member of a name has.
pub(crate) fn member_details<T: ReadDetails>(
    alloc: Global,
    value: &Value<'_>,
    name: &str,
    thing: &mut T,
) -> Result<(), ReadError>
    ensures { Completes result
        (under (Member name.now) (T.detailed thing.old (value_view value.now))) thing.new }
{
    in_member(alloc, thing.read_details(alloc, value), name)
}

/// Things in a row, of which the parts of a value tell, one of each.
trait Row<P>: Sized {
    /// How many there are.
    ghost many: { Self → ℕ };

    /// The row with what a part says of the thing at an index.
    ghost with_part: { Self → ℕ → P → Reading Self };

    /// How many there are.
    fn many(&self) -> usize
        ensures { result ≡ many self.now };

    /// Reads what a part says of the thing at an index. Of the row after an error only its length is said.
    fn read_part(&mut self, alloc: Global, index: usize, part: &P) -> Result<(), ReadError>
        requires { index < many self.old }
        ensures many { many self.new ≡ many self.old }
        ensures part { Completes result (with_part self.old index part.now) self.new };
}

/// Reads what parts say of the things of a row, as many as there are, in order.
fn read_parts<P, R: Row<P>>(alloc: Global, row: &mut R, parts: &[P]) -> Result<(), ReadError>
    ensures { Completes result (with_parts R.with_part (R.many row.old) 0 row.old parts.now)
        row.new }
{
    let many = row.many();
    for index in 0..many {
        let Some(part) = parts.get(index) else {
            return instead_of(alloc, Expected::Details);
        };
        row.read_part(alloc, index, part)?;
    }
    if many < parts.len() {
        return instead_of(alloc, Expected::Details);
    }
    Ok(())
}

/// Of each item, in order.
impl<T: ReadDetails> ReadDetails for Items<T> {
    ghost detailed = { list_with T.detailed };

    fn read_details(&mut self, alloc: Global, value: &Value<'_>) -> Result<(), ReadError> {
        match value {
            Value::Array(values) => read_parts(alloc, self, values),
            _ => instead_of(alloc, Expected::List),
        }
    }
}

impl<'a, T: ReadDetails> Row<Value<'a>> for Items<T> {
    ghost many = { length };

    ghost with_part = { with_item T.detailed };

    fn many(&self) -> usize
        ensures { result ≡ length self.now }
    {
        self.len()
    }

    fn read_part(
        &mut self,
        alloc: Global,
        index: usize,
        details: &Value<'a>,
    ) -> Result<(), ReadError> {
        in_item(self.at_mut(index).read_details(alloc, details), index)
    }
}

/// Of each entry, under its name, in order.
impl<T: ReadDetails> ReadDetails for Names<T> {
    ghost detailed = { table_with (λ (name : List ℕ). name) T.detailed };

    fn read_details(&mut self, alloc: Global, value: &Value<'_>) -> Result<(), ReadError> {
        match value {
            Value::Object(members) => read_parts(alloc, self, members),
            _ => instead_of(alloc, Expected::Object),
        }
    }
}

impl<'a, T: ReadDetails> Row<(&'a str, Value<'a>)> for Names<T> {
    ghost many = { length };

    ghost with_part = { with_named T.detailed };

    fn many(&self) -> usize
        ensures { result ≡ length self.now }
    {
        self.len()
    }

    fn read_part(
        &mut self,
        alloc: Global,
        index: usize,
        member: &(&'a str, Value<'a>),
    ) -> Result<(), ReadError> {
        if member.0 != self.entry_at(index).0 {
            return instead_of(alloc, Expected::Details);
        }
        member_details(alloc, &member.1, member.0, self.value_at_mut(index))
    }
}

/// Of each entry, under the name of its key, in order.
impl ReadDetails for Table<WorldKey, WorldItem> {
    ghost detailed = { table_with entry_name item_with };

    fn read_details(&mut self, alloc: Global, value: &Value<'_>) -> Result<(), ReadError> {
        match value {
            Value::Object(members) => read_parts(alloc, self, members),
            _ => instead_of(alloc, Expected::Object),
        }
    }
}

impl<'a> Row<(&'a str, Value<'a>)> for Table<WorldKey, WorldItem> {
    ghost many = { length };

    ghost with_part = { with_entry };

    fn many(&self) -> usize
        ensures { result ≡ length self.now }
    {
        self.len()
    }

    fn read_part(
        &mut self,
        alloc: Global,
        index: usize,
        member: &(&'a str, Value<'a>),
    ) -> Result<(), ReadError> {
        if !is_name_of(alloc, member.0, self.entry_at(index).0)? {
            return instead_of(alloc, Expected::Details);
        }
        member_details(alloc, &member.1, member.0, self.value_at_mut(index))
    }
}

/// Whether a name is that of a key.
fn is_name_of(alloc: Global, name: &str, key: &WorldKey) -> Result<bool, AllocError>
    ensures { IfOk result (λ is. is ≡ bytes_eq name.now (entry_name key.now)) }
{
    let key = EntryName(key);
    let own = format!(in alloc; "{key}")?;
    Ok(name == own.as_str())
}
