//! Flags that are kept beside a graph: of which types all bits are valid.
ghost use Rattle.std.specs.Prelude.{◌≡◌, ◌≤◌, ◌<◌, ◌⊎◌, IsTrue, OnErr, OnOk, length, ℕ};
ghost use Rattle.std.specs.List.{list_all};
ghost use Rattle.wit_data.specs.declared.types.Field.{Field};
ghost use Rattle.wit_graph_data.specs.Queries.{is_number};
ghost use Rattle.wit_queries.specs.ValidBits.{AreValidBits, AreValidBitsOf, is_valid_by};
ghost use Rattle.wit_queries.specs.steps.ValidBits.{Agrees, AreRightBelow, AreRightOff, has_valid_parts, on_count};

use std::alloc::{AllocError, Global};
use wit_data::{Field, Items, Type_, TypeDef, TypeDefKind};

/// Whether it is one of the ten number types.
fn is_number(ty: Type_) -> bool
    ensures { result ≡ is_number ty }
{
    match ty {
        Type_::U8
        | Type_::U16
        | Type_::U32
        | Type_::U64
        | Type_::S8
        | Type_::S16
        | Type_::S32
        | Type_::S64
        | Type_::F32
        | Type_::F64 => true,
        Type_::Bool | Type_::Char | Type_::String | Type_::ErrorContext | Type_::Id(_) => false,
    }
}

/// Whether all bits are valid values of a type, which is a number or has its flag in `flags`, one for each type by its
/// id. It takes no memory.
///
/// Source: `all_bits_valid` of wit-parser 0.263.0.
pub fn is_valid_by(flags: &[bool], ty: Type_) -> bool
    ensures { result ≡ is_valid_by flags.now ty }
{
    match ty {
        Type_::Id(id) => match flags.get(id.index()) {
            Some(flag) => *flag,
            None => false,
        },
        other => is_number(other),
    }
}

/// Adds the flags of the types that have none yet, behind those of the first ones, which tell of these already. There
/// are no more flags than types. It looks at the new types alone: twice at each where a type comes behind its parts.
/// Where there is no memory the flags are as before.
///
/// Source: `all_bits_valid` of wit-parser 0.263.0.
pub fn add_valid_bits(
    alloc: Global,
    flags: &mut Items<bool>,
    types: &[TypeDef],
) -> Result<(), AllocError>
    requires first { length flags.old ≤ length types.now }
    requires known { AreValidBits types.now flags.old }
    ensures ok { OnOk result (AreValidBitsOf types.now flags.new) }
    ensures unchanged { OnErr result (flags.new ≡ flags.old) }
{
    let first = flags.len();
    let new = vec![in alloc; true; types.len() - first]?;
    flags.append(Items::from_vec(new))?;
    while !settle(flags, types, first) {}
    Ok(())
}

/// Takes back each flag, from an id on, with which the parts of its type don't agree. Whether there was none.
fn settle(flags: &mut Items<bool>, types: &[TypeDef], first: usize) -> bool
    requires each { length flags.old ≡ length types.now }
    requires off { AreRightOff types.now flags.old }
    requires below { AreRightBelow first types.now flags.old }
    ensures each { length flags.new ≡ length types.now }
    ensures off { AreRightOff types.now flags.new }
    ensures below { AreRightBelow first types.now flags.new }
    ensures settled { IsTrue result → (t : ℕ) → first ≤ t → Agrees types.now flags.new t }
    ensures fewer { IsTrue result ⊎ (on_count flags.new < on_count flags.old) }
{
    let mut settled = true;
    for place in first..types.len() {
        if *flags.at(place) && !has_valid_parts(flags.as_slice(), &types[place].kind) {
            flags.set(place, false);
            settled = false;
        }
    }
    settled
}

/// Whether a kind has its parts at fixed offsets, and by the flags all bits of those that its values hold are valid.
fn has_valid_parts(flags: &[bool], kind: &TypeDefKind) -> bool
    ensures { result ≡ has_valid_parts flags.now kind.now }
{
    match kind {
        TypeDefKind::Handle(_) => true,
        TypeDefKind::Type_(ty) => is_valid_by(flags, *ty),
        TypeDefKind::FixedLengthList(ty, _) => is_valid_by(flags, *ty),
        TypeDefKind::Record { fields } => are_valid_fields(flags, fields.as_slice()),
        TypeDefKind::Tuple { types } => are_valid_types(flags, types.as_slice()),
        _ => false,
    }
}

fn are_valid_fields(flags: &[bool], fields: &[Field]) -> bool
    ensures { result ≡ list_all (λ (f : Field). is_valid_by flags.now f.ty) fields.now }
{
    fields.iter().all(|field| is_valid_by(flags, field.ty))
}

fn are_valid_types(flags: &[bool], types: &[Type_]) -> bool
    ensures { result ≡ list_all (is_valid_by flags.now) types.now }
{
    types.iter().all(|ty| is_valid_by(flags, *ty))
}
