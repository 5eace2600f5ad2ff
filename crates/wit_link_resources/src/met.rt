//! Types of a graph that are met on the way along aliases, and whether they lead to a resource.
ghost use Rattle.std.specs.Prelude.{◌≡◌, ◌<◌, ℕ, IfOk, None, Some, length, nat_eq, take};
ghost use Rattle.std.specs.Map.{lookup};
ghost use Rattle.wit_digraph.specs.Relation.{IsAcyclic};
ghost use Rattle.wit_data.specs.Kind.{type_references};
ghost use Rattle.wit_remap_spec.specs.Resources.{leads_to_resource};
ghost use Rattle.wit_link_resources.specs.steps.Leading.{AreRight, EndsAt, LeadsOn};

use crate::leading::is_resource;
use std::alloc::AllocError;
use wit_data::{TypeDef, TypeId, alias_target};
use wit_values::Table;

/// Whether a type of a graph is a resource or leads to one by aliases.
///
/// It takes a step for each alias on the way up to one that was met, and notes them all: so none is gone along twice.
pub(crate) fn leads_to_resource(
    types: &[TypeDef],
    met: &mut Table<TypeId, bool>,
    id: TypeId,
) -> Result<bool, AllocError>
    requires acyclic { IsAcyclic (type_references types.now) }
    requires there { id < length types.now }
    requires met { AreRight types.now met.old }
    ensures leads { IfOk result (λ leads. leads ≡ leads_to_resource types.now id) }
    ensures met { AreRight types.now met.new }
    ensures begins { take (length met.old) met.new ≡ met.old }
{
    let leads = end_of_way(types, met, id.index());
    note_way(types, met, id.index(), leads)?;
    Ok(leads)
}

/// What is known of the first type on the way that was met, or whether the last one is a resource.
fn end_of_way(types: &[TypeDef], met: &Table<TypeId, bool>, place: usize) -> bool
    requires acyclic { IsAcyclic (type_references types.now) }
    requires there { place < length types.now }
    requires met { AreRight types.now met.now }
    ensures { result ≡ leads_to_resource types.now place }
{
    let mut place = place;
    while let Some(target) = next(types, met, place) {
        place = target.index();
    }
    match met.get(&TypeId::from_index(place)) {
        Some(leads) => *leads,
        None => is_resource(&types[place].kind),
    }
}

/// Notes where the aliases on the way lead that weren't met.
fn note_way(
    types: &[TypeDef],
    met: &mut Table<TypeId, bool>,
    place: usize,
    leads: bool,
) -> Result<(), AllocError>
    requires acyclic { IsAcyclic (type_references types.now) }
    requires there { place < length types.now }
    requires met { AreRight types.now met.old }
    requires leads { leads ≡ leads_to_resource types.now place }
    ensures met { AreRight types.now met.new }
    ensures begins { take (length met.old) met.new ≡ met.old }
{
    let mut place = place;
    while let Some(target) = next(types, met, place) {
        met.push(TypeId::from_index(place), leads)?;
        place = target.index();
    }
    Ok(())
}

/// The next type on the way: the one that a type names as an alias, if it wasn't met.
fn next(types: &[TypeDef], met: &Table<TypeId, bool>, index: usize) -> Option<TypeId>
    requires { index < length types.now }
    ensures some { (target : ℕ) → result ≡ Some target → LeadsOn types.now met.now index target }
    ensures none { result ≡ None → lookup (nat_eq index) met.now ≡ None → EndsAt types.now index }
{
    if met.contains_key(&TypeId::from_index(index)) {
        return None;
    }
    alias_target(&types[index].kind)
}
