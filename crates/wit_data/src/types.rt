//! Types.
ghost use Rattle.std.specs.Prelude.{◌≡◌};
ghost use Rattle.wit_data.specs.New.{new_type};

use crate::ids::{InterfaceId, TypeId, WorldId};
use crate::stability::{Docs, Stability};
use std::alloc::AllocError;
use wit_sources::Span;
use wit_values::{Items, Text, TryClone, try_clone_four};

/// What a value is of: a primitive of WIT, or a type of a list of types.
///
/// Source: `Type` of wit-parser 0.263.0.
#[derive(Clone, Copy, PartialEq, Eq)]
pub enum Type_ {
    Bool,
    U8,
    U16,
    U32,
    U64,
    S8,
    S16,
    S32,
    S64,
    F32,
    F64,
    Char,
    String,
    ErrorContext,
    Id(TypeId),
}

impl TryClone for Type_ {
    fn try_clone(&self) -> Result<Type_, AllocError> {
        Ok(*self)
    }
}

/// A field of a record.
///
/// Source: `Field` of wit-parser 0.263.0.
#[derive(PartialEq, Eq, Drop)]
pub struct Field {
    pub name: Text,
    pub ty: Type_,
    pub docs: Docs,
    pub span: Span,
}

impl TryClone for Field {
    fn try_clone(&self) -> Result<Field, AllocError> {
        Ok(Field {
            name: self.name.try_clone()?,
            ty: self.ty,
            docs: self.docs.try_clone()?,
            span: self.span,
        })
    }
}

/// A case of a variant, with the type of its payload where it has one.
///
/// Source: `Case` of wit-parser 0.263.0.
#[derive(PartialEq, Eq, Drop)]
pub struct Case {
    pub name: Text,
    pub ty: Option<Type_>,
    pub docs: Docs,
    pub span: Span,
}

impl TryClone for Case {
    fn try_clone(&self) -> Result<Case, AllocError> {
        Ok(Case {
            name: self.name.try_clone()?,
            ty: self.ty,
            docs: self.docs.try_clone()?,
            span: self.span,
        })
    }
}

/// One of the flags of a `flags` type.
///
/// Source: `Flag` of wit-parser 0.263.0.
#[derive(PartialEq, Eq, Drop)]
pub struct Flag {
    pub name: Text,
    pub docs: Docs,
    pub span: Span,
}

impl TryClone for Flag {
    fn try_clone(&self) -> Result<Flag, AllocError> {
        Ok(Flag {
            name: self.name.try_clone()?,
            docs: self.docs.try_clone()?,
            span: self.span,
        })
    }
}

/// A case of an enum.
///
/// Source: `EnumCase` of wit-parser 0.263.0.
#[derive(PartialEq, Eq, Drop)]
pub struct EnumCase {
    pub name: Text,
    pub docs: Docs,
    pub span: Span,
}

impl TryClone for EnumCase {
    fn try_clone(&self) -> Result<EnumCase, AllocError> {
        Ok(EnumCase {
            name: self.name.try_clone()?,
            docs: self.docs.try_clone()?,
            span: self.span,
        })
    }
}

/// A handle of a resource: the resource itself, or a loan of it.
///
/// Source: `Handle` of wit-parser 0.263.0.
#[derive(Clone, Copy, PartialEq, Eq)]
pub enum Handle {
    Own(TypeId),
    Borrow(TypeId),
}

/// Who owns a type.
///
/// Source: `TypeOwner` of wit-parser 0.263.0.
#[derive(Clone, Copy, PartialEq, Eq)]
pub enum TypeOwner {
    /// The world that lists it among its imports.
    World(WorldId),
    /// The interface that lists it.
    Interface(InterfaceId),
    /// Nobody: it has no name.
    None,
}

/// What a type is.
///
/// Source: `TypeDefKind` of wit-parser 0.263.0.
#[derive(PartialEq, Eq, Drop)]
pub enum TypeDefKind {
    Record {
        fields: Items<Field>,
    },
    Resource,
    Handle(Handle),
    Flags {
        flags: Items<Flag>,
    },
    Tuple {
        types: Items<Type_>,
    },
    Variant {
        cases: Items<Case>,
    },
    Enum {
        cases: Items<EnumCase>,
    },
    Option(Type_),
    Result_ {
        ok: Option<Type_>,
        err: Option<Type_>,
    },
    List(Type_),
    Map(Type_, Type_),
    FixedLengthList(Type_, u32),
    Future(Option<Type_>),
    Stream(Option<Type_>),
    /// An alias: another name of a type.
    Type_(Type_),
    /// A type of a foreign interface, of which a package knows the name alone.
    Unknown,
}

impl TryClone for TypeDefKind {
    fn try_clone(&self) -> Result<TypeDefKind, AllocError> {
        match self {
            TypeDefKind::Record { fields } => Ok(TypeDefKind::Record {
                fields: fields.try_clone()?,
            }),
            TypeDefKind::Resource => Ok(TypeDefKind::Resource),
            TypeDefKind::Handle(handle) => Ok(TypeDefKind::Handle(*handle)),
            TypeDefKind::Flags { flags } => Ok(TypeDefKind::Flags {
                flags: flags.try_clone()?,
            }),
            TypeDefKind::Tuple { types } => Ok(TypeDefKind::Tuple {
                types: types.try_clone()?,
            }),
            TypeDefKind::Variant { cases } => Ok(TypeDefKind::Variant {
                cases: cases.try_clone()?,
            }),
            TypeDefKind::Enum { cases } => Ok(TypeDefKind::Enum {
                cases: cases.try_clone()?,
            }),
            TypeDefKind::Option(ty) => Ok(TypeDefKind::Option(*ty)),
            TypeDefKind::Result_ { ok, err } => Ok(TypeDefKind::Result_ { ok: *ok, err: *err }),
            TypeDefKind::List(ty) => Ok(TypeDefKind::List(*ty)),
            TypeDefKind::Map(key, value) => Ok(TypeDefKind::Map(*key, *value)),
            TypeDefKind::FixedLengthList(ty, len) => Ok(TypeDefKind::FixedLengthList(*ty, *len)),
            TypeDefKind::Future(ty) => Ok(TypeDefKind::Future(*ty)),
            TypeDefKind::Stream(ty) => Ok(TypeDefKind::Stream(*ty)),
            TypeDefKind::Type_(ty) => Ok(TypeDefKind::Type_(*ty)),
            TypeDefKind::Unknown => Ok(TypeDefKind::Unknown),
        }
    }
}

/// A type of a list of types.
///
/// Source: `TypeDef` of wit-parser 0.263.0.
pub struct TypeDef {
    /// Its name, which a type with an owner has.
    pub name: Option<Text>,
    pub kind: TypeDefKind,
    pub owner: TypeOwner,
    pub docs: Docs,
    pub stability: Stability,
    pub span: Span,
    pub external_id: Option<Text>,
}

impl TypeDef {
    /// A type of which nothing more is said: without docs, gate and external id, with an unknown span. It takes no
    /// memory.
    pub fn new(name: Option<Text>, kind: TypeDefKind, owner: TypeOwner) -> TypeDef
        ensures { result ≡ new_type name kind owner }
    {
        TypeDef {
            name,
            kind,
            owner,
            docs: Docs::none(),
            stability: Stability::Unknown,
            span: Span::unknown(),
            external_id: None,
        }
    }
}

/// As the derived one: each field is let go. A call of it costs the check less than a derived one,
/// which is checked again wherever a value is let go.
impl Drop for TypeDef {
    fn drop(self) {
        let TypeDef {
            name,
            kind,
            docs,
            stability,
            external_id,
            owner: _,
            span: _,
        } = self;
        drop(name);
        drop(kind);
        drop(docs);
        drop(stability);
        drop(external_id);
    }
}

impl TryClone for TypeDef {
    fn try_clone(&self) -> Result<TypeDef, AllocError> {
        let kind = self.kind.try_clone()?;
        let (name, docs, stability, external_id) = try_clone_four(
            &self.name,
            &self.docs,
            &self.stability,
            &self.external_id,
        )?;
        Ok(TypeDef {
            name,
            kind,
            owner: self.owner,
            docs,
            stability,
            span: self.span,
            external_id,
        })
    }
}
