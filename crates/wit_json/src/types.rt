//! Types.
ghost use Rattle.std.specs.Prelude.{◌≡◌, ◌++◌, OnOk};
ghost use Rattle.json.specs.Tree.{json_tokens};
ghost use Rattle.wit_json.specs.Types.{json_of_case, json_of_enum_case, json_of_field, json_of_flag, json_of_handle, json_of_kind, json_of_owner, json_of_result, json_of_type, json_of_type_def};
ghost use Rattle.wit_data.specs.declared.types.TypeDefKind.TheVariants as kind;
ghost use Rattle.wit_json.specs.Values.{json_of_number};

use crate::writer::{JsonText, WriteJson};
use std::alloc::AllocError;
use wit_data::{Case, EnumCase, Field, Flag, Handle, Type_, TypeDef, TypeDefKind, TypeOwner};

impl WriteJson for Type_ {
    ghost json = { json_of_type };

    fn write_json(&self, out: &mut JsonText) -> Result<(), AllocError> {
        match self {
            Type_::Bool => out.string("bool"),
            Type_::U8 => out.string("u8"),
            Type_::U16 => out.string("u16"),
            Type_::U32 => out.string("u32"),
            Type_::U64 => out.string("u64"),
            Type_::S8 => out.string("s8"),
            Type_::S16 => out.string("s16"),
            Type_::S32 => out.string("s32"),
            Type_::S64 => out.string("s64"),
            Type_::F32 => out.string("f32"),
            Type_::F64 => out.string("f64"),
            Type_::Char => out.string("char"),
            Type_::String => out.string("string"),
            Type_::ErrorContext => out.string("error-context"),
            Type_::Id(id) => id.write_json(out),
        }
    }
}

impl WriteJson for Field {
    ghost json = { json_of_field };

    fn write_json(&self, out: &mut JsonText) -> Result<(), AllocError> {
        out.begin_object()?;
        out.member("name", &self.name)?;
        out.member("type", &self.ty)?;
        out.docs(&self.docs)?;
        out.end_object()
    }
}

impl WriteJson for Case {
    ghost json = { json_of_case };

    fn write_json(&self, out: &mut JsonText) -> Result<(), AllocError> {
        out.begin_object()?;
        out.member("name", &self.name)?;
        out.member("type", &self.ty)?;
        out.docs(&self.docs)?;
        out.end_object()
    }
}

impl WriteJson for Flag {
    ghost json = { json_of_flag };

    fn write_json(&self, out: &mut JsonText) -> Result<(), AllocError> {
        out.begin_object()?;
        out.member("name", &self.name)?;
        out.docs(&self.docs)?;
        out.end_object()
    }
}

impl WriteJson for EnumCase {
    ghost json = { json_of_enum_case };

    fn write_json(&self, out: &mut JsonText) -> Result<(), AllocError> {
        out.begin_object()?;
        out.member("name", &self.name)?;
        out.docs(&self.docs)?;
        out.end_object()
    }
}

impl WriteJson for Handle {
    ghost json = { json_of_handle };

    fn write_json(&self, out: &mut JsonText) -> Result<(), AllocError> {
        match self {
            Handle::Own(id) => out.tagged("own", id),
            Handle::Borrow(id) => out.tagged("borrow", id),
        }
    }
}

impl WriteJson for TypeOwner {
    ghost json = { json_of_owner };

    fn write_json(&self, out: &mut JsonText) -> Result<(), AllocError> {
        match self {
            TypeOwner::World(id) => out.tagged("world", id),
            TypeOwner::Interface(id) => out.tagged("interface", id),
            TypeOwner::None => out.null(),
        }
    }
}

impl WriteJson for TypeDefKind {
    ghost json = { json_of_kind };

    fn write_json(&self, out: &mut JsonText) -> Result<(), AllocError> {
        match self {
            TypeDefKind::Record { fields } => out.tagged_list(
                "record",
                "fields",
                fields.as_slice(),
            ),
            TypeDefKind::Resource => out.string("resource"),
            TypeDefKind::Handle(handle) => out.tagged("handle", handle),
            TypeDefKind::Flags { flags } => out.tagged_list("flags", "flags", flags.as_slice()),
            TypeDefKind::Tuple { types } => out.tagged_list("tuple", "types", types.as_slice()),
            TypeDefKind::Variant { cases } => out.tagged_list("variant", "cases", cases.as_slice()),
            TypeDefKind::Enum { cases } => out.tagged_list("enum", "cases", cases.as_slice()),
            TypeDefKind::Option(ty) => out.tagged("option", ty),
            TypeDefKind::Result_ { ok, err } => out.result_kind(ok, err),
            TypeDefKind::List(ty) => out.tagged("list", ty),
            TypeDefKind::Map(key, value) => out.tagged("map", &(*key, *value)),
            TypeDefKind::FixedLengthList(ty, len) => out.tagged("fixed-length-list", &(*ty, *len)),
            TypeDefKind::Future(ty) => out.tagged("future", ty),
            TypeDefKind::Stream(ty) => out.tagged("stream", ty),
            TypeDefKind::Type_(ty) => out.tagged("type", ty),
            TypeDefKind::Unknown => out.string("unknown"),
        }
    }
}

impl JsonText {
    /// Writes the kind of a result.
    fn result_kind(&mut self, ok: &Option<Type_>, err: &Option<Type_>) -> Result<(), AllocError>
        ensures { OnOk result
            (self.new ≡ self.old ++ json_tokens (json_of_kind (kind.Result_ ok.now err.now))) }
    {
        self.begin_tagged("result")?;
        self.result_parts(ok, err)?;
        self.end_object()
    }

    /// Writes what a result has where it is well, and where it isn't.
    fn result_parts(&mut self, ok: &Option<Type_>, err: &Option<Type_>) -> Result<(), AllocError>
        ensures { OnOk result (self.new ≡ self.old ++ json_tokens (json_of_result ok.now err.now)) }
    {
        self.begin_object()?;
        self.member("ok", ok)?;
        self.member("err", err)?;
        self.end_object()
    }
}

impl WriteJson for TypeDef {
    ghost json = { json_of_type_def };

    fn write_json(&self, out: &mut JsonText) -> Result<(), AllocError> {
        out.begin_object()?;
        out.member("name", &self.name)?;
        out.member("kind", &self.kind)?;
        out.member("owner", &self.owner)?;
        out.docs(&self.docs)?;
        out.stability(&self.stability)?;
        out.end_object()
    }
}
