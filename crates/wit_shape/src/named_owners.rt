//! Of which owners the named types are that a type is or refers to through types without names.
//!
//! Where no type refers to itself, one pass over the types tells it of each, in an order in which each
//! stands after those that it refers to.
ghost use Rattle.std.specs.Prelude.{◌≡◌, ◌↔◌, ◌<◌, ℕ, [], length, Contains, IfOk, IsTrue};
ghost use Rattle.wit_data.specs.Ownership.{IsOwn, NamesThroughUnnamed};
ghost use Rattle.wit_data.specs.Kind.{type_references};
ghost use Rattle.wit_shape.specs.steps.NamedOwners.{AreNamedOwners, IsNamedOwners, IsOnly, IsTold, joined};
ghost use Rattle.wit_digraph.specs.Relation.{IsAcyclic};
ghost use Rattle.wit_digraph.specs.steps.PostOrder.{UsesFirst};

use std::alloc::{AllocError, Global};
use wit_data::{TypeDef, TypeId, TypeOwner, referred, type_references};
use wit_digraph::Listing;
use wit_values::Items;

/// Of no owner, of one alone, or of different ones.
#[derive(Clone, Copy)]
pub enum NamedOwners {
    Nothing,
    One(TypeOwner),
    Several,
}

/// What each type shows. Types refer to types that are there, and none to itself, through whatever others. The only
/// error is want of memory.
pub fn shown_by_each(alloc: Global, types: &[TypeDef]) -> Result<Items<NamedOwners>, AllocError>
    requires { IsAcyclic (type_references types.now) }
    ensures { IfOk result (λ shown. AreNamedOwners types.now shown) }
{
    let listing = uses_first(alloc, types)?;
    let mut shown = Items::from_vec(vec![in alloc; NamedOwners::Nothing; types.len()]?);
    for index in listing.order() {
        let told = shown_by(alloc, types, &shown, *index)?;
        shown.set(*index, told);
    }
    Ok(shown)
}

/// All types, each after those that it refers to.
fn uses_first(alloc: Global, types: &[TypeDef]) -> Result<Listing, AllocError>
    requires { IsAcyclic (type_references types.now) }
    ensures nodes { IfOk result (λ l. l.nodes ≡ length types.now) }
    ensures all { IfOk result (λ l. (i : ℕ) → i < length types.now → Contains l.order i) }
    ensures uses_first { IfOk result (λ l. UsesFirst (type_references types.now) [] l.order) }
{
    let references = type_references(alloc, types)?;
    Listing::of_all(alloc, references.as_slice())
}

/// What a type shows, where it is told of the types that it refers to.
fn shown_by(
    alloc: Global,
    types: &[TypeDef],
    shown: &Items<NamedOwners>,
    index: usize,
) -> Result<NamedOwners, AllocError>
    requires index { index < length types.now }
    requires known { IsTold types.now shown.now index }
    ensures { IfOk result (λ told. IsNamedOwners (NamesThroughUnnamed types.now index) told) }
{
    let def = &types[index];
    if def.name.is_some() {
        return Ok(NamedOwners::One(def.owner));
    }
    let ids = referred(alloc, &def.kind)?;
    let mut told = NamedOwners::Nothing;
    for id in ids.as_slice() {
        told = join(told, *shown.at(id.index()));
    }
    Ok(told)
}

/// Of which owners, where two things tell it.
fn join(a: NamedOwners, b: NamedOwners) -> NamedOwners
    ensures { result ≡ joined a b }
{
    match (a, b) {
        (NamedOwners::Nothing, told) => told,
        (told, NamedOwners::Nothing) => told,
        (NamedOwners::One(a), NamedOwners::One(b)) => if a == b {
            NamedOwners::One(a)
        } else {
            NamedOwners::Several
        },
        _ => NamedOwners::Several,
    }
}

/// Whether there is such a type, and no named type that it shows is of another owner. What is shown of each type is
/// told by `shown_by_each`.
pub fn is_own(types: &[TypeDef], shown: &Items<NamedOwners>, owner: TypeOwner, id: TypeId) -> bool
    requires { AreNamedOwners types.now shown.now }
    ensures { IsTrue result ↔ IsOwn types.now owner id }
{
    if id.index() >= types.len() {
        return false;
    }
    is_only(*shown.at(id.index()), owner)
}

fn is_only(told: NamedOwners, owner: TypeOwner) -> bool
    ensures { IsTrue result ↔ IsOnly told owner }
{
    match told {
        NamedOwners::Nothing => true,
        NamedOwners::One(only) => only == owner,
        NamedOwners::Several => false,
    }
}
