//! What a kind of type is and what it holds: its variant and its parts.
ghost use Rattle.std.specs.Prelude.{◌≡◌, ◌≢◌, ◌∷◌, ◌++◌, [], OnOk, Option, length, option_and_then, slice_get};
ghost use Rattle.std.specs.List.{flat_map};
ghost use Rattle.std.specs.Option.{option_copied};
ghost use Rattle.wit_data.specs.Each.{Each};
ghost use Rattle.wit_data.specs.Kind.{KindPart, fixed_length, kind_parts, variant_of, named_option, named_type};
ghost use Rattle.wit_data.specs.steps.Kind.{part_name, plain_step};
ghost use Rattle.wit_data.specs.declared.kind.Variant.TheVariants.{Tuple};
ghost use Rattle.wit_data.specs.declared.types.Case.{Case};
ghost use Rattle.wit_data.specs.declared.types.Field.{Field};
ghost use Rattle.wit_data.specs.declared.types.Type_.{Type_};
ghost use Rattle.wit_data.specs.facts.KindFacts.{named_types};

use crate::ids::TypeId;
use crate::reference::{push_option, push_type};
use crate::types::{Case, Field, Handle, Type_, TypeDefKind};
use std::alloc::AllocError;
use wit_sources::Span;
use wit_values::{Items, Text};

/// Which kind a type is of, without what it is made of. The handles `own` and `borrow` are two.
#[derive(Clone, Copy, PartialEq, Eq)]
pub enum Variant {
    Record,
    Resource,
    Own,
    Borrow,
    Flags,
    Tuple,
    Variant_,
    Enum,
    Option,
    Result_,
    List,
    Map,
    FixedLengthList,
    Future,
    Stream,
    Alias,
    Unknown,
}

/// What a part is to its kind.
#[derive(Clone, Copy, PartialEq, Eq)]
pub enum PartRole {
    /// Of a field, a case, a flag or an element: values of the kind hold values of it.
    Value,
    /// What an alias is another name of.
    Target,
    /// The resource that a handle is of.
    Argument,
}

/// The variant of a kind.
pub fn variant_of(kind: &TypeDefKind) -> Variant
    ensures { result ≡ variant_of kind.now }
{
    match kind {
        TypeDefKind::Record { .. } => Variant::Record,
        TypeDefKind::Resource => Variant::Resource,
        TypeDefKind::Handle(Handle::Own(_)) => Variant::Own,
        TypeDefKind::Handle(Handle::Borrow(_)) => Variant::Borrow,
        TypeDefKind::Flags { .. } => Variant::Flags,
        TypeDefKind::Tuple { .. } => Variant::Tuple,
        TypeDefKind::Variant { .. } => Variant::Variant_,
        TypeDefKind::Enum { .. } => Variant::Enum,
        TypeDefKind::Option(_) => Variant::Option,
        TypeDefKind::Result_ { .. } => Variant::Result_,
        TypeDefKind::List(_) => Variant::List,
        TypeDefKind::Map(_, _) => Variant::Map,
        TypeDefKind::FixedLengthList(_, _) => Variant::FixedLengthList,
        TypeDefKind::Future(_) => Variant::Future,
        TypeDefKind::Stream(_) => Variant::Stream,
        TypeDefKind::Type_(_) => Variant::Alias,
        TypeDefKind::Unknown => Variant::Unknown,
    }
}

/// Its length, if that is fixed.
pub fn fixed_length(kind: &TypeDefKind) -> Option<u32>
    ensures { result ≡ fixed_length kind.now }
{
    match kind {
        TypeDefKind::FixedLengthList(_, len) => Some(*len),
        _ => None,
    }
}

/// The role that its parts have, which is one for all of them.
pub fn part_role(kind: &TypeDefKind) -> PartRole
    ensures { Each (λ (p : KindPart). p.role ≡ result) (kind_parts kind.now) }
{
    match kind {
        TypeDefKind::Handle(_) => PartRole::Argument,
        TypeDefKind::Type_(_) => PartRole::Target,
        _ => PartRole::Value,
    }
}

/// How many parts it has: flags and the cases of an enum are parts without a type.
pub fn part_count(kind: &TypeDefKind) -> usize
    ensures { result ≡ length (kind_parts kind.now) }
{
    match kind {
        TypeDefKind::Record { fields } => fields.len(),
        TypeDefKind::Flags { flags } => flags.len(),
        TypeDefKind::Tuple { types } => types.len(),
        TypeDefKind::Variant { cases } => cases.len(),
        TypeDefKind::Enum { cases } => cases.len(),
        TypeDefKind::Result_ { .. } | TypeDefKind::Map(_, _) => 2,
        TypeDefKind::Resource | TypeDefKind::Unknown => 0,
        TypeDefKind::Handle(_)
        | TypeDefKind::Option(_)
        | TypeDefKind::List(_)
        | TypeDefKind::FixedLengthList(_, _)
        | TypeDefKind::Future(_)
        | TypeDefKind::Stream(_)
        | TypeDefKind::Type_(_) => 1,
    }
}

/// The type of a part, where there is such a part and it has one.
pub fn part_type(kind: &TypeDefKind, index: usize) -> Option<Type_>
    ensures { result
        ≡ option_and_then (λ (p : KindPart). p.ty) (slice_get (kind_parts kind.now) index) }
{
    match kind {
        TypeDefKind::Record { fields } => Some(fields.get(index)?.ty),
        TypeDefKind::Tuple { types } => types.get(index).copied(),
        TypeDefKind::Variant { cases } => cases.get(index)?.ty,
        TypeDefKind::Result_ { ok, err } => two_parts(*ok, *err, index),
        TypeDefKind::Map(key, value) => two_parts(Some(*key), Some(*value), index),
        TypeDefKind::Handle(Handle::Own(id)) => one_part(Some(Type_::Id(*id)), index),
        TypeDefKind::Handle(Handle::Borrow(id)) => one_part(Some(Type_::Id(*id)), index),
        TypeDefKind::Option(ty) => one_part(Some(*ty), index),
        TypeDefKind::List(ty) => one_part(Some(*ty), index),
        TypeDefKind::FixedLengthList(ty, _) => one_part(Some(*ty), index),
        TypeDefKind::Future(ty) => one_part(*ty, index),
        TypeDefKind::Stream(ty) => one_part(*ty, index),
        TypeDefKind::Type_(ty) => one_part(Some(*ty), index),
        TypeDefKind::Flags { .. } => None,
        TypeDefKind::Enum { .. } => None,
        TypeDefKind::Resource | TypeDefKind::Unknown => None,
    }
}

/// The name of a part, where there is such a part and it has a name of its own.
pub fn part_name(kind: &TypeDefKind, index: usize) -> Option<&Text>
    ensures { option_copied result
        ≡ option_and_then part_name (slice_get (kind_parts kind.now) index) }
{
    match kind {
        TypeDefKind::Record { fields } => Some(&fields.get(index)?.name),
        TypeDefKind::Flags { flags } => Some(&flags.get(index)?.name),
        TypeDefKind::Variant { cases } => Some(&cases.get(index)?.name),
        TypeDefKind::Enum { cases } => Some(&cases.get(index)?.name),
        _ => None,
    }
}

/// The span of a part, where there is such a part and it has a name of its own.
pub fn part_span(kind: &TypeDefKind, index: usize) -> Option<Span>
    ensures { result
        ≡ option_and_then (λ (p : KindPart). p.span) (slice_get (kind_parts kind.now) index) }
{
    match kind {
        TypeDefKind::Record { fields } => Some(fields.get(index)?.span),
        TypeDefKind::Flags { flags } => Some(flags.get(index)?.span),
        TypeDefKind::Variant { cases } => Some(cases.get(index)?.span),
        TypeDefKind::Enum { cases } => Some(cases.get(index)?.span),
        _ => None,
    }
}

/// What parts without names are called in a path, but for those of tuples.
pub fn plain_step(variant: Variant, index: usize) -> &'static str
    requires { variant ≢ Tuple }
    ensures { result.now ≡ plain_step variant index }
{
    match variant {
        Variant::Own | Variant::Borrow => "handle",
        Variant::Alias => "alias",
        Variant::Map => { if index == 0 { "key" } else { "value" } }
        Variant::Result_ => { if index == 0 { "ok" } else { "err" } }
        Variant::Tuple => "element",
        Variant::Record
        | Variant::Resource
        | Variant::Flags
        | Variant::Variant_
        | Variant::Enum
        | Variant::Option
        | Variant::List
        | Variant::FixedLengthList
        | Variant::Future
        | Variant::Stream
        | Variant::Unknown => "element",
    }
}

/// The type of a single part.
fn one_part(ty: Option<Type_>, index: usize) -> Option<Type_>
    ensures { result ≡ option_and_then (λ (o : Option Type_). o) (slice_get (ty ∷ []) index) }
{
    match index {
        0 => ty,
        _ => None,
    }
}

/// The type of one of two parts.
fn two_parts(first: Option<Type_>, second: Option<Type_>, index: usize) -> Option<Type_>
    ensures { result
        ≡ option_and_then (λ (o : Option Type_). o) (slice_get (first ∷ second ∷ []) index) }
{
    match index {
        0 => first,
        1 => second,
        _ => None,
    }
}

/// Adds to ids the types that a kind refers to, kind by kind: see `referred`. The only error is want of memory.
pub(crate) fn push_kind(ids: &mut Items<TypeId>, kind: &TypeDefKind) -> Result<(), AllocError>
    ensures { OnOk result (ids.new ≡ ids.old ++ named_types kind.now) }
{
    match kind {
        TypeDefKind::Record { fields } => push_fields(ids, fields.as_slice()),
        TypeDefKind::Handle(Handle::Own(id) | Handle::Borrow(id)) => ids.push(*id),
        TypeDefKind::Tuple { types } => push_types(ids, types.as_slice()),
        TypeDefKind::Variant { cases } => push_cases(ids, cases.as_slice()),
        TypeDefKind::Option(ty)
        | TypeDefKind::List(ty)
        | TypeDefKind::FixedLengthList(ty, _)
        | TypeDefKind::Type_(ty) => push_type(ids, *ty),
        TypeDefKind::Result_ { ok, err } => {
            push_option(ids, *ok)?;
            push_option(ids, *err)
        }
        TypeDefKind::Map(key, value) => {
            push_type(ids, *key)?;
            push_type(ids, *value)
        }
        TypeDefKind::Future(ty) | TypeDefKind::Stream(ty) => push_option(ids, *ty),
        TypeDefKind::Resource
        | TypeDefKind::Flags { .. }
        | TypeDefKind::Enum { .. }
        | TypeDefKind::Unknown => Ok(()),
    }
}

fn push_types(ids: &mut Items<TypeId>, types: &[Type_]) -> Result<(), AllocError>
    ensures { OnOk result (ids.new ≡ ids.old ++ flat_map named_type types.now) }
{
    for ty in types {
        push_type(ids, *ty)?;
    }
    Ok(())
}

fn push_fields(ids: &mut Items<TypeId>, fields: &[Field]) -> Result<(), AllocError>
    ensures { OnOk result
        (ids.new ≡ ids.old ++ flat_map (λ (f : Field). named_type f.ty) fields.now) }
{
    for field in fields {
        push_type(ids, field.ty)?;
    }
    Ok(())
}

fn push_cases(ids: &mut Items<TypeId>, cases: &[Case]) -> Result<(), AllocError>
    ensures { OnOk result
        (ids.new ≡ ids.old ++ flat_map (λ (c : Case). named_option c.ty) cases.now) }
{
    for case in cases {
        push_option(ids, case.ty)?;
    }
    Ok(())
}
