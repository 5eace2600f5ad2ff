//! Which of the types that a world names lead to a type that goes with the world.
ghost use Rattle.std.specs.Prelude.{◌≡◌, ℕ, ◌<◌, ◌++◌, Contains, IfOk, OnOk, length, map, nat_eq};
ghost use Rattle.std.specs.List.{list_any};
ghost use Rattle.std.specs.Map.{lookup};
ghost use Rattle.wit_data.specs.Kind.{type_references};
ghost use Rattle.wit_digraph.specs.Relation.{IsAcyclic, direct};
ghost use Rattle.wit_link_include.specs.steps.Included.{IsOrigin, StayApart, known_of, leads_by, open_rows, said};
ghost use Rattle.wit_link_include.specs.declared.leading.Step.TheVariants as step;

use crate::origin::Origin;
use indexmap::IndexMap;
use std::alloc::{AllocError, Global};
use wit_data::{Items, Table, TypeId, referred};

/// A step of a walk along what types refer to: into a type, or out of it after all that it refers to.
#[derive(Clone, Copy)]
pub(crate) enum Step {
    Enter(TypeId),
    Leave(TypeId),
}

/// Of each type that is reached from the roots through types that may refer to what goes with the world, whether it
/// leads there.
///
/// It takes two steps for each of these types and for each type that one of them refers to.
pub(crate) fn leading(
    alloc: Global,
    origin: &Origin<'_>,
    roots: &[TypeId],
) -> Result<Table<TypeId, bool>, AllocError>
    requires origin { IsOrigin origin.now }
    requires acyclic { IsAcyclic (type_references origin.now.graph.now.types) }
    requires apart { StayApart origin.now.graph.now origin.now.id origin.now.world.now }
    requires there { (t : ℕ) → Contains roots.now t → t < length origin.now.graph.now.types }
    ensures { IfOk result
        (λ known. (t : ℕ) → lookup (nat_eq t) known ≡ known_of origin.now roots.now t) }
{
    let mut known = IndexMap::new(alloc);
    let mut stack = Items::new(alloc);
    push_enters(&mut stack, roots)?;
    while let Some(step) = stack.pop() {
        match step {
            Step::Enter(id) => {
                if !known.contains_key(&id) {
                    stack.push(Step::Leave(id))?;
                    push_references(alloc, origin, &mut stack, id)?;
                }
            }
            Step::Leave(id) => {
                let leads = leads(alloc, origin, &known, id)?;
                known.insert(id, leads)?;
            }
        }
    }
    Ok(Table::from_map(known)?)
}

/// Adds steps into what a type refers to, where it may refer to what goes with the world.
fn push_references(
    alloc: Global,
    origin: &Origin<'_>,
    stack: &mut Items<Step>,
    id: TypeId,
) -> Result<(), AllocError>
    requires { IsOrigin origin.now }
    ensures { OnOk result
        (stack.new ≡ stack.old ++ map step.Enter (direct (open_rows origin.now) id)) }
{
    match origin.graph.types.get(id.index()) {
        Some(def) => {
            if origin.is_open(def) {
                push_enters(stack, referred(alloc, &def.kind)?.as_slice())
            } else {
                Ok(())
            }
        }
        None => Ok(()),
    }
}

/// Whether a type leads to what goes with the world, where it is known of all that it refers to.
fn leads(
    alloc: Global,
    origin: &Origin<'_>,
    known: &IndexMap<TypeId, bool>,
    id: TypeId,
) -> Result<bool, AllocError>
    requires { IsOrigin origin.now }
    ensures { IfOk result (λ leads. leads ≡ leads_by origin.now known.now.entries id) }
{
    match origin.graph.types.get(id.index()) {
        Some(def) => {
            if origin.owns(def.owner) {
                Ok(true)
            } else if def.name.is_some() {
                Ok(false)
            } else {
                Ok(any_leads(known, referred(alloc, &def.kind)?.as_slice()))
            }
        }
        None => Ok(false),
    }
}

/// Whether one of some types is known to lead there.
fn any_leads(known: &IndexMap<TypeId, bool>, ids: &[TypeId]) -> bool
    ensures { result ≡ list_any (said known.now.entries) ids.now }
{
    for id in ids {
        if is_said(known, id) {
            return true;
        }
    }
    false
}

/// Whether a type is known to lead there.
fn is_said(known: &IndexMap<TypeId, bool>, id: &TypeId) -> bool
    ensures { result ≡ said known.now.entries id.now }
{
    match known.get(id) {
        Some(leads) => *leads,
        None => false,
    }
}

/// Adds steps into types.
fn push_enters(stack: &mut Items<Step>, ids: &[TypeId]) -> Result<(), AllocError>
    ensures { OnOk result (stack.new ≡ stack.old ++ map step.Enter ids.now) }
{
    for id in ids {
        stack.push(Step::Enter(*id))?;
    }
    Ok(())
}

/// The types that are known to lead there.
pub(crate) fn those_leading(
    alloc: Global,
    known: &Table<TypeId, bool>,
) -> Result<Items<TypeId>, AllocError>
    ensures { IfOk result (λ ids. (t : ℕ) → list_any (nat_eq t) ids ≡ said known.now t) }
{
    let mut ids = Items::new(alloc);
    for (id, leads) in known.iter() {
        if *leads {
            ids.push(*id)?;
        }
    }
    Ok(ids)
}
