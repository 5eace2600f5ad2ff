//! Types.
ghost use Rattle.std.specs.Prelude.{Ok, ◌≡◌};
ghost use Rattle.json.specs.Json as json;
ghost use Rattle.json.specs.Value.{value_view};
ghost use Rattle.wit_json_reading.specs.Objects.{read_variant};
ghost use Rattle.wit_json_reading.specs.declared.fault.Expected.TheVariants as expected;
ghost use Rattle.wit_json_reading.specs.Reading.{Reads};
ghost use Rattle.wit_json_reading.specs.steps.Parts.{read_fixed_length_list, read_map};
ghost use Rattle.wit_json_reading.specs.Values.{read_number};
ghost use Rattle.wit_json_reading.specs.Types.{by_id, read_case, read_enum_case, read_field, read_flag, read_handle_by, read_kind_by, read_kind, read_owner_by, read_owner, read_result, read_type_def, read_type};

use crate::fault::{Expected, ReadError, in_member, instead_of};
use crate::gates::{docs, span, stability};
use crate::objects::{alone, one_member, pair};
use crate::reader::{ReadJson, only, optional, required};
use json::Value;
use std::alloc::Global;
use wit_data::{
    Case, EnumCase, Field, Flag, Handle, Type_, TypeDef, TypeDefKind, TypeId, TypeOwner,
};

impl ReadJson for Type_ {
    ghost reading = { read_type };

    #[tactic(auto, unfolding(crate::specs::Types::read_type))]
    fn read_json(alloc: Global, value: &Value<'_>) -> Result<Type_, ReadError> {
        match value.as_str() {
            Some(word) => primitive(alloc, word),
            None => by_id(alloc, value),
        }
    }
}

/// A type by its id.
fn by_id(alloc: Global, value: &Value<'_>) -> Result<Type_, ReadError>
    ensures { Reads result (by_id (read_number (value_view value.now))) }
{
    match TypeId::read_json(alloc, value) {
        Ok(id) => Ok(Type_::Id(id)),
        Err(ReadError::Fault(_)) => instead_of(alloc, Expected::Type),
        Err(ReadError::OutOfMemory) => Err(ReadError::OutOfMemory),
    }
}

/// The primitive of a name.
#[tactic(auto, unfolding(crate::specs::Types::read_type))]
fn primitive(alloc: Global, word: &str) -> Result<Type_, ReadError>
    ensures { Reads result (read_type (json.string word.now)) }
{
    match word {
        "bool" => Ok(Type_::Bool),
        "u8" => Ok(Type_::U8),
        "u16" => Ok(Type_::U16),
        "u32" => Ok(Type_::U32),
        "u64" => Ok(Type_::U64),
        "s8" => Ok(Type_::S8),
        "s16" => Ok(Type_::S16),
        "s32" => Ok(Type_::S32),
        "s64" => Ok(Type_::S64),
        "f32" => Ok(Type_::F32),
        "f64" => Ok(Type_::F64),
        "char" => Ok(Type_::Char),
        "string" => Ok(Type_::String),
        "error-context" => Ok(Type_::ErrorContext),
        _ => instead_of(alloc, Expected::Type),
    }
}

impl ReadJson for Field {
    ghost reading = { read_field };

    #[tactic(auto, unfolding(crate::specs::Types::read_field))]
    fn read_json(alloc: Global, value: &Value<'_>) -> Result<Field, ReadError> {
        only(alloc, value, &["name", "type", "docs", "span"])?;
        let name = required(alloc, value, "name")?;
        let ty = required(alloc, value, "type")?;
        let docs = docs(alloc, value)?;
        let span = span(alloc, value)?;
        Ok(Field {
            name,
            ty,
            docs,
            span,
        })
    }
}

impl ReadJson for Case {
    ghost reading = { read_case };

    #[tactic(auto, unfolding(crate::specs::Types::read_case))]
    fn read_json(alloc: Global, value: &Value<'_>) -> Result<Case, ReadError> {
        only(alloc, value, &["name", "type", "docs", "span"])?;
        let name = required(alloc, value, "name")?;
        let ty = required(alloc, value, "type")?;
        let docs = docs(alloc, value)?;
        let span = span(alloc, value)?;
        Ok(Case {
            name,
            ty,
            docs,
            span,
        })
    }
}

impl ReadJson for Flag {
    ghost reading = { read_flag };

    #[tactic(auto, unfolding(crate::specs::Types::read_flag))]
    fn read_json(alloc: Global, value: &Value<'_>) -> Result<Flag, ReadError> {
        only(alloc, value, &["name", "docs", "span"])?;
        let name = required(alloc, value, "name")?;
        let docs = docs(alloc, value)?;
        let span = span(alloc, value)?;
        Ok(Flag { name, docs, span })
    }
}

impl ReadJson for EnumCase {
    ghost reading = { read_enum_case };

    #[tactic(auto, unfolding(crate::specs::Types::read_enum_case))]
    fn read_json(alloc: Global, value: &Value<'_>) -> Result<EnumCase, ReadError> {
        only(alloc, value, &["name", "docs", "span"])?;
        let name = required(alloc, value, "name")?;
        let docs = docs(alloc, value)?;
        let span = span(alloc, value)?;
        Ok(EnumCase { name, docs, span })
    }
}

impl ReadJson for Handle {
    ghost reading = { read_variant read_handle_by expected.Handle };

    fn read_json(alloc: Global, value: &Value<'_>) -> Result<Handle, ReadError> {
        match one_member(value) {
            Some((name, id)) => in_member(alloc, handle(alloc, name, id), name),
            None => instead_of(alloc, Expected::Handle),
        }
    }
}

/// The handle of this name.
fn handle(alloc: Global, name: &str, value: &Value<'_>) -> Result<Handle, ReadError>
    ensures { Reads result (read_handle_by name.now (value_view value.now)) }
{
    match name {
        "own" => Ok(Handle::Own(ReadJson::read_json(alloc, value)?)),
        "borrow" => Ok(Handle::Borrow(ReadJson::read_json(alloc, value)?)),
        _ => instead_of(alloc, Expected::Handle),
    }
}

impl ReadJson for TypeOwner {
    ghost reading = { read_owner };

    #[tactic(auto, unfolding(crate::specs::Types::read_owner))]
    fn read_json(alloc: Global, value: &Value<'_>) -> Result<TypeOwner, ReadError> {
        if value.is_null() {
            return Ok(TypeOwner::None);
        }
        match one_member(value) {
            Some((name, id)) => in_member(alloc, owner(alloc, name, id), name),
            None => instead_of(alloc, Expected::Owner),
        }
    }
}

/// The owner of this sort.
fn owner(alloc: Global, name: &str, value: &Value<'_>) -> Result<TypeOwner, ReadError>
    ensures { Reads result (read_owner_by name.now (value_view value.now)) }
{
    match name {
        "interface" => Ok(TypeOwner::Interface(ReadJson::read_json(alloc, value)?)),
        "world" => Ok(TypeOwner::World(ReadJson::read_json(alloc, value)?)),
        _ => instead_of(alloc, Expected::Owner),
    }
}

impl ReadJson for TypeDefKind {
    ghost reading = { read_kind };

    #[tactic(auto, unfolding(crate::specs::Types::read_kind))]
    fn read_json(alloc: Global, value: &Value<'_>) -> Result<TypeDefKind, ReadError> {
        if let Some(word) = value.as_str() {
            return plain_kind(alloc, word);
        }
        match one_member(value) {
            Some((name, parts)) => in_member(alloc, kind(alloc, name, parts), name),
            None => instead_of(alloc, Expected::TypeKind),
        }
    }
}

/// A kind without parts.
#[tactic(auto, unfolding(crate::specs::Types::read_kind))]
fn plain_kind(alloc: Global, word: &str) -> Result<TypeDefKind, ReadError>
    ensures { Reads result (read_kind (json.string word.now)) }
{
    match word {
        "resource" => Ok(TypeDefKind::Resource),
        "unknown" => Ok(TypeDefKind::Unknown),
        _ => instead_of(alloc, Expected::TypeKind),
    }
}

/// A kind with parts.
#[tactic(auto, unfolding(crate::specs::Types::read_kind_by))]
fn kind(alloc: Global, name: &str, value: &Value<'_>) -> Result<TypeDefKind, ReadError>
    ensures { Reads result (read_kind_by name.now (value_view value.now)) }
{
    match name {
        "record" => Ok(TypeDefKind::Record {
            fields: alone(alloc, value, "fields")?,
        }),
        "handle" => Ok(TypeDefKind::Handle(ReadJson::read_json(alloc, value)?)),
        "flags" => Ok(TypeDefKind::Flags {
            flags: alone(alloc, value, "flags")?,
        }),
        "tuple" => Ok(TypeDefKind::Tuple {
            types: alone(alloc, value, "types")?,
        }),
        "variant" => Ok(TypeDefKind::Variant {
            cases: alone(alloc, value, "cases")?,
        }),
        "enum" => Ok(TypeDefKind::Enum {
            cases: alone(alloc, value, "cases")?,
        }),
        "option" => Ok(TypeDefKind::Option(ReadJson::read_json(alloc, value)?)),
        "result" => result(alloc, value),
        "list" => Ok(TypeDefKind::List(ReadJson::read_json(alloc, value)?)),
        "map" => map(alloc, value),
        "fixed-length-list" => fixed_length_list(alloc, value),
        "future" => Ok(TypeDefKind::Future(ReadJson::read_json(alloc, value)?)),
        "stream" => Ok(TypeDefKind::Stream(ReadJson::read_json(alloc, value)?)),
        "type" => Ok(TypeDefKind::Type_(ReadJson::read_json(alloc, value)?)),
        _ => instead_of(alloc, Expected::TypeKind),
    }
}

#[tactic(auto, unfolding(crate::specs::Types::read_result))]
fn result(alloc: Global, value: &Value<'_>) -> Result<TypeDefKind, ReadError>
    ensures { Reads result (read_result (value_view value.now)) }
{
    only(alloc, value, &["ok", "err"])?;
    let ok = required(alloc, value, "ok")?;
    let err = required(alloc, value, "err")?;
    Ok(TypeDefKind::Result_ { ok, err })
}

fn map(alloc: Global, value: &Value<'_>) -> Result<TypeDefKind, ReadError>
    ensures { Reads result (read_map (value_view value.now)) }
{
    let (key, item) = pair(alloc, value)?;
    Ok(TypeDefKind::Map(key, item))
}

fn fixed_length_list(alloc: Global, value: &Value<'_>) -> Result<TypeDefKind, ReadError>
    ensures { Reads result (read_fixed_length_list (value_view value.now)) }
{
    let (ty, len) = pair(alloc, value)?;
    Ok(TypeDefKind::FixedLengthList(ty, len))
}

impl ReadJson for TypeDef {
    ghost reading = { read_type_def };

    #[tactic(auto, unfolding(crate::specs::Types::read_type_def))]
    fn read_json(alloc: Global, value: &Value<'_>) -> Result<TypeDef, ReadError> {
        only(
            alloc,
            value,
            &[
                "name",
                "kind",
                "owner",
                "docs",
                "stability",
                "span",
                "external-id",
            ],
        )?;
        let name = required(alloc, value, "name")?;
        let kind = required(alloc, value, "kind")?;
        let owner = required(alloc, value, "owner")?;
        let docs = docs(alloc, value)?;
        let stability = stability(alloc, value)?;
        let span = span(alloc, value)?;
        let external_id = optional(alloc, value, "external-id")?;
        Ok(TypeDef {
            name,
            kind,
            owner,
            docs,
            stability,
            span,
            external_id,
        })
    }
}
