//! Types without a name, each of which is there once.

use crate::draft::Draft;
use crate::tables::add_new;
use std::alloc::{AllocError, Global};
use std::fmt::Write;
use wit_data::{
    Handle, Span, Stability, TryClone, Type_, TypeDef, TypeDefKind, TypeId, TypeOwner, referred,
};

impl Draft {
    /// The type without a name that is of this kind. Where it is new, it stands here, and has the gate of the first type in
    /// it that has one, else this one. The only error is want of memory.
    pub fn add_unnamed(
        &mut self,
        kind: TypeDefKind,
        span: Span,
        gate: &Stability,
    ) -> Result<TypeId, AllocError> {
        let key = unnamed_key(self.allocator(), &kind)?;
        if let Some(id) = self.unnamed.get(key.as_str()) {
            return Ok(*id);
        }
        let stability = self.unnamed_gate(&kind, gate)?;
        let mut def = TypeDef::new(None, kind, TypeOwner::None);
        def.stability = stability;
        def.span = span;
        let id = self.add_type(def)?;
        add_new(&mut self.unnamed, key, id)?;
        Ok(id)
    }

    /// The gate of the first type in a kind that has one, else this one.
    fn unnamed_gate(&self, kind: &TypeDefKind, gate: &Stability) -> Result<Stability, AllocError> {
        for id in referred(self.allocator(), kind)?.iter() {
            if let Some(def) = self.types.get(id.index()) {
                if !def.stability.is_unknown() {
                    return def.stability.try_clone();
                }
            }
        }
        gate.try_clone()
    }
}

/// A text that two types without a name have alike exactly if they are of one kind.
fn unnamed_key(alloc: Global, kind: &TypeDefKind) -> Result<String, AllocError> {
    let mut key = String::from_str(alloc, word_of(kind))?;
    match kind {
        TypeDefKind::Handle(Handle::Own(id) | Handle::Borrow(id)) => {
            add_type(&mut key, Type_::Id(*id))?;
        }
        TypeDefKind::Tuple { types } => {
            for ty in types.iter() {
                add_type(&mut key, *ty)?;
            }
        }
        TypeDefKind::Result_ { ok, err } => {
            add_option(&mut key, *ok)?;
            add_option(&mut key, *err)?;
        }
        TypeDefKind::Map(first, second) => {
            add_type(&mut key, *first)?;
            add_type(&mut key, *second)?;
        }
        TypeDefKind::FixedLengthList(ty, len) => {
            add_type(&mut key, *ty)?;
            write!(key, " {len}")?;
        }
        TypeDefKind::List(ty) | TypeDefKind::Option(ty) => add_type(&mut key, *ty)?,
        TypeDefKind::Future(ty) | TypeDefKind::Stream(ty) => add_option(&mut key, *ty)?,
        _ => {}
    }
    Ok(key)
}

/// The word of a kind of types without a name.
fn word_of(kind: &TypeDefKind) -> &'static str {
    match kind {
        TypeDefKind::Handle(Handle::Own(_)) => "own",
        TypeDefKind::Handle(Handle::Borrow(_)) => "borrow",
        TypeDefKind::Tuple { .. } => "tuple",
        TypeDefKind::Result_ { .. } => "result",
        TypeDefKind::Map(_, _) => "map",
        TypeDefKind::FixedLengthList(_, _) => "array",
        TypeDefKind::List(_) => "list",
        TypeDefKind::Option(_) => "option",
        TypeDefKind::Future(_) => "future",
        TypeDefKind::Stream(_) => "stream",
        _ => "",
    }
}

/// Adds a type that may be missing to a key.
fn add_option(key: &mut String, ty: Option<Type_>) -> Result<(), AllocError> {
    match ty {
        Some(ty) => add_type(key, ty),
        None => key.push_str(" _"),
    }
}

/// Adds a type to a key.
fn add_type(key: &mut String, ty: Type_) -> Result<(), AllocError> {
    if let Type_::Id(id) = ty {
        let index = id.index();
        return write!(key, " {index}");
    }
    key.push_str(primitive_word(ty))
}

/// The word of a primitive in a key.
fn primitive_word(ty: Type_) -> &'static str {
    match ty {
        Type_::Bool => " bool",
        Type_::U8 => " u8",
        Type_::U16 => " u16",
        Type_::U32 => " u32",
        Type_::U64 => " u64",
        Type_::S8 => " s8",
        Type_::S16 => " s16",
        Type_::S32 => " s32",
        Type_::S64 => " s64",
        Type_::F32 => " f32",
        Type_::F64 => " f64",
        Type_::Char => " char",
        Type_::String => " string",
        Type_::ErrorContext | Type_::Id(_) => " error-context",
    }
}
