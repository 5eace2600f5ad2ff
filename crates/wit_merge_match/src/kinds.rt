//! How kinds of types compare by their parts, and what parts are called in a path.
ghost use Rattle.std.specs.Prelude.{◌≡◌, ◌↔◌, ◌<◌, IfOk, IsTrue, length, string_bytes};
ghost use Rattle.wit_data.specs.Kind.{kind_parts, variant_of};
ghost use Rattle.wit_merge_match.specs.steps.Kinds.{name_at, step_at, steps_of};

use std::alloc::{AllocError, Global};
use wit_data::{TypeDefKind, Variant, part_count, part_name, plain_step, variant_of};

/// Whether a part of one kind and that of another at the same index have the same name, or both none.
fn have_same_name(from: &TypeDefKind, into: &TypeDefKind, index: usize) -> bool
    ensures { IsTrue result ↔ (name_at from.now index ≡ name_at into.now index) }
{
    match part_name(from, index) {
        Some(name) => match part_name(into, index) {
            Some(there) => name == there,
            None => false,
        },
        None => part_name(into, index).is_none(),
    }
}

/// Whether two kinds of one variant have as many parts, and these the same names.
pub(crate) fn have_same_parts(from: &TypeDefKind, into: &TypeDefKind) -> bool
    requires { variant_of from.now ≡ variant_of into.now }
    ensures { IsTrue result ↔ (steps_of from.now ≡ steps_of into.now) }
{
    let count = part_count(from);
    if count != part_count(into) {
        return false;
    }
    for index in 0..count {
        if !have_same_name(from, into, index) {
            return false;
        }
    }
    true
}

/// What a part is called in a path.
pub(crate) fn step_text(
    alloc: Global,
    kind: &TypeDefKind,
    index: usize,
) -> Result<String, AllocError>
    requires { index < length (kind_parts kind.now) }
    ensures { IfOk result (λ step. string_bytes step ≡ step_at kind.now index) }
{
    if let Some(name) = part_name(kind, index) {
        return String::from_str(alloc, name.as_str());
    }
    match variant_of(kind) {
        Variant::Tuple => format!(in alloc; "{index}"),
        variant => String::from_str(alloc, plain_step(variant, index)),
    }
}
