//! Tables under names.
ghost use Rattle.std.specs.Prelude.{◌≡◌, ◌++◌, ◌∷◌, [], IfOk, OnOk, None};
ghost use Rattle.std.specs.Map.{lookup};
ghost use Rattle.std.specs.Str.{bytes_eq};
ghost use Rattle.wit_json_reading.specs.Tables.{read_named};

use crate::fault::{Expected, ReadError, in_member, instead_of};
use crate::reader::ReadJson;
use json::Value;
use std::alloc::{AllocError, Global};
use wit_values::Names;

impl<T: ReadJson + Drop> ReadJson for Names<T> {
    ghost reading = { read_named T.reading };

    fn read_json(alloc: Global, value: &Value<'_>) -> Result<Names<T>, ReadError> {
        let Value::Object(members) = value else {
            return instead_of(alloc, Expected::Object);
        };
        let mut names = Names::new(alloc);
        for member in members {
            let name = member.0;
            if names.contains_key(name) {
                return in_member(alloc, instead_of(alloc, Expected::NoSecondMember), name);
            }
            let value = in_member(alloc, T::read_json(alloc, &member.1), name)?;
            push_named(alloc, &mut names, name, value)?;
        }
        Ok(names)
    }
}

/// Adds an entry under a name that isn't there yet.
fn push_named<T: Drop>(
    alloc: Global,
    names: &mut Names<T>,
    name: &str,
    value: T,
) -> Result<(), AllocError>
    requires { lookup (bytes_eq name.now) names.old ≡ None }
    ensures { OnOk result (names.new ≡ names.old ++ (name.now, value) ∷ []) }
{
    let name = String::from_str(alloc, name)?;
    names.push(name, value)
}
