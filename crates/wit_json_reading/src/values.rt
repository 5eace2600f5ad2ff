//! The values that everything else is made of.
ghost use Rattle.std.specs.Prelude.{◌≡◌, ◌≤◌, ◌<◌, ◌+◌, ◌-◌, ◌*◌, ◌^◌};
ghost use Rattle.std.specs.Option.{SomeIff};
ghost use Rattle.json.specs.Value.{value_view};
ghost use Rattle.semver.specs.Parse.{version_parts};
ghost use Rattle.wit_json_reading.specs.Reading.{Reads, read_list};
ghost use Rattle.wit_json_reading.specs.Values.{read_boolean, decimal_of, nullable, read_number, read_small_number, read_text, version_in, read_version};

use crate::fault::{Expected, ReadError, instead_of};
use crate::reader::{ReadJson, list};
use json::Value;
use std::alloc::{AllocError, Global};
use wit_data::{InterfaceId, PackageId, TypeId, WorldId};
use wit_values::{Items, Text, Version};

impl ReadJson for Text {
    ghost reading = { read_text };

    fn read_json(alloc: Global, value: &Value<'_>) -> Result<Text, ReadError> {
        match value.as_str() {
            Some(text) => Ok(Text::try_from_str(alloc, text)?),
            None => instead_of(alloc, Expected::Text),
        }
    }
}

impl ReadJson for bool {
    ghost reading = { read_boolean };

    fn read_json(alloc: Global, value: &Value<'_>) -> Result<bool, ReadError> {
        match value.as_bool() {
            Some(value) => Ok(value),
            None => instead_of(alloc, Expected::Boolean),
        }
    }
}

impl ReadJson for Version {
    ghost reading = { read_version };

    #[tactic(auto, unfolding(crate::specs::Values::read_version))]
    fn read_json(alloc: Global, value: &Value<'_>) -> Result<Version, ReadError> {
        match value.as_str() {
            Some(text) => version(alloc, text),
            None => instead_of(alloc, Expected::Text),
        }
    }
}

/// The version of a text.
pub(crate) fn version(alloc: Global, text: &str) -> Result<Version, ReadError>
    ensures { Reads result (version_in (version_parts text.now)) }
{
    match semver::Version::parse(alloc, text) {
        Ok(version) => Ok(Version::from_version(alloc, version)?),
        Err(error) => {
            if error == semver::Error::from(AllocError) {
                Err(ReadError::OutOfMemory)
            } else {
                instead_of(alloc, Expected::Version)
            }
        }
    }
}

/// The index that a value is.
fn index(alloc: Global, value: &Value<'_>) -> Result<usize, ReadError>
    ensures { Reads result (read_number (value_view value.now)) }
{
    match value.as_number() {
        Some(text) => match decimal(text) {
            Some(number) => Ok(number as usize),
            None => instead_of(alloc, Expected::Number),
        },
        None => instead_of(alloc, Expected::Number),
    }
}

/// The number that a text of digits alone is, where it has 64 bits.
#[tactic(auto, unfolding(crate::specs::Values::decimal_of))]
fn decimal(text: &str) -> Option<u64>
    ensures { result ≡ decimal_of text.now }
{
    let mut number: u64 = 0;
    let digits = text.as_bytes();
    for index in 0..digits.len() {
        let digit = digits[index];
        if !digit.is_ascii_digit() {
            return None;
        }
        match with_digit(number, digit) {
            Some(more) => number = more,
            None => return None,
        }
    }
    Some(number)
}

/// A number with one more digit behind it, where it has 64 bits.
fn with_digit(number: u64, digit: u8) -> Option<u64>
    requires { (48 ≤ digit) × (digit ≤ 57) }
    ensures { SomeIff result (number * 10 + (digit - 48) < 2 ^ 64) (number * 10 + (digit - 48)) }
{
    number.checked_mul(10)?.checked_add(u64::from(digit - b'0'))
}

impl ReadJson for u32 {
    ghost reading = { read_small_number };

    #[tactic(auto, unfolding(crate::specs::Values::read_small_number))]
    fn read_json(alloc: Global, value: &Value<'_>) -> Result<u32, ReadError> {
        let number = index(alloc, value)?;
        match u32::try_from(number) {
            Ok(number) => Ok(number),
            Err(_) => instead_of(alloc, Expected::SmallNumber),
        }
    }
}

impl ReadJson for TypeId {
    ghost reading = { read_number };

    fn read_json(alloc: Global, value: &Value<'_>) -> Result<TypeId, ReadError> {
        Ok(TypeId::from_index(index(alloc, value)?))
    }
}

impl ReadJson for InterfaceId {
    ghost reading = { read_number };

    fn read_json(alloc: Global, value: &Value<'_>) -> Result<InterfaceId, ReadError> {
        Ok(InterfaceId::from_index(index(alloc, value)?))
    }
}

impl ReadJson for WorldId {
    ghost reading = { read_number };

    fn read_json(alloc: Global, value: &Value<'_>) -> Result<WorldId, ReadError> {
        Ok(WorldId::from_index(index(alloc, value)?))
    }
}

impl ReadJson for PackageId {
    ghost reading = { read_number };

    fn read_json(alloc: Global, value: &Value<'_>) -> Result<PackageId, ReadError> {
        Ok(PackageId::from_index(index(alloc, value)?))
    }
}

/// `null` where it isn't there.
impl<T: ReadJson + Drop> ReadJson for Option<T> {
    ghost reading = { nullable T.reading };

    fn read_json(alloc: Global, value: &Value<'_>) -> Result<Option<T>, ReadError> {
        if value.is_null() {
            return Ok(None);
        }
        Ok(Some(T::read_json(alloc, value)?))
    }
}

impl<T: ReadJson + Drop> ReadJson for Items<T> {
    ghost reading = { read_list T.reading };

    fn read_json(alloc: Global, value: &Value<'_>) -> Result<Items<T>, ReadError> {
        list(alloc, value)
    }
}
