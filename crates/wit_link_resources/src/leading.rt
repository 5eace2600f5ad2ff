//! Which types that come into a graph lead to a resource there.
ghost use Rattle.std.specs.Prelude.{◌≡◌, ◌<◌, ℕ, List, IfOk, None, OnOk, Some, length, slice_get, take, true};
ghost use Rattle.wit_data.specs.Uses.{alias_target};
ghost use Rattle.wit_data.specs.declared.function.Function.{Function};
ghost use Rattle.wit_data.specs.declared.types.TypeDef.{TypeDef};
ghost use Rattle.wit_remap_spec.specs.Resources.{is_resource_kind};
ghost use Rattle.wit_remap_spec.specs.ValueRemap.{ValueRemap};
ghost use Rattle.wit_link_resources.specs.steps.IncomingTypes.{AreTold, CanComeIn, EndsWay, IsRemap, IsRemapped, NamesNext, leads_in, new_of};
ghost use Rattle.wit_link_resources.specs.steps.Leading.{AreRight};

use crate::incoming::Incoming;
use crate::met::leads_to_resource;
use std::alloc::AllocError;
use wit_data::{Items, TypeDefKind, TypeId};
use wit_values::Table;

/// Whether a type of this kind is a resource.
pub(crate) fn is_resource(kind: &TypeDefKind) -> bool
    ensures { result ≡ is_resource_kind kind.now }
{
    matches!(kind, TypeDefKind::Resource)
}

/// Whether a type that comes leads to a resource by aliases where it goes. What is told of it is noted for all on its
/// way, for those of the graph behind what was met: so none is gone over twice.
#[tactic(auto, using(crate::specs::facts::MetTypes::begins_same, crate::specs::facts::MetTypes::begins_then))]
pub(crate) fn leads(
    incoming: &Incoming<'_>,
    met: &mut Table<TypeId, bool>,
    known: &mut Items<Option<bool>>,
    index: usize,
) -> Result<bool, AllocError>
    requires can { CanComeIn incoming.now }
    requires long { length known.old ≡ length incoming.now.types.now }
    requires remapped { IsRemapped incoming.now.ids.now index }
    requires met { AreRight incoming.now.graph_types.now met.old }
    ensures leads { IfOk result (λ leads.
        (functions : List Function) (r : ValueRemap) → IsRemap incoming.now functions r
        → AreTold r known.old → leads_in r index ≡ leads) }
    ensures long { length known.new ≡ length incoming.now.types.now }
    ensures told { OnOk result ((functions : List Function) (r : ValueRemap)
        → IsRemap incoming.now functions r → AreTold r known.old → AreTold r known.new) }
    ensures met { AreRight incoming.now.graph_types.now met.new }
    ensures begins { take (length met.old) met.new ≡ met.old }
{
    let end = end_of_way(incoming, known, index);
    let leads = leads_at_end(incoming, met, known, end)?;
    note_way(incoming, known, index, leads);
    Ok(leads)
}

/// The first type on the way along aliases of which something is known, or the last that is new, or that of the graph.
fn end_of_way(incoming: &Incoming<'_>, known: &Items<Option<bool>>, index: usize) -> usize
    requires can { CanComeIn incoming.now }
    requires long { length known.now ≡ length incoming.now.types.now }
    requires remapped { IsRemapped incoming.now.ids.now index }
    ensures remapped { IsRemapped incoming.now.ids.now result }
    ensures same { (functions : List Function) (r : ValueRemap) → IsRemap incoming.now functions r
        → leads_in r index ≡ leads_in r result }
    ensures end { EndsWay incoming.now known.now result }
{
    let mut current = index;
    while let Some(target) = next(incoming, known, current) {
        current = target.index();
    }
    current
}

/// The same of one at the end of a way.
fn leads_at_end(
    incoming: &Incoming<'_>,
    met: &mut Table<TypeId, bool>,
    known: &Items<Option<bool>>,
    index: usize,
) -> Result<bool, AllocError>
    requires can { CanComeIn incoming.now }
    requires long { length known.now ≡ length incoming.now.types.now }
    requires remapped { IsRemapped incoming.now.ids.now index }
    requires end { EndsWay incoming.now known.now index }
    requires met { AreRight incoming.now.graph_types.now met.old }
    ensures leads { IfOk result (λ leads.
        (functions : List Function) (r : ValueRemap) → IsRemap incoming.now functions r
        → AreTold r known.now → leads_in r index ≡ leads) }
    ensures met { AreRight incoming.now.graph_types.now met.new }
    ensures begins { take (length met.old) met.new ≡ met.old }
{
    match *known.at(index) {
        Some(leads) => Ok(leads),
        None => leads_unknown(incoming, met, index),
    }
}

/// The same of one of which nothing is known: a new one that is no alias, or one that goes to a type of the graph.
fn leads_unknown(
    incoming: &Incoming<'_>,
    met: &mut Table<TypeId, bool>,
    index: usize,
) -> Result<bool, AllocError>
    requires can { CanComeIn incoming.now }
    requires remapped { IsRemapped incoming.now.ids.now index }
    requires end { new_of incoming.now index ≡ true → (def : TypeDef)
        → slice_get incoming.now.types.now index ≡ Some def → alias_target def.kind ≡ None }
    requires met { AreRight incoming.now.graph_types.now met.old }
    ensures leads { IfOk result (λ leads.
        (functions : List Function) (r : ValueRemap) → IsRemap incoming.now functions r
        → leads_in r index ≡ leads) }
    ensures met { AreRight incoming.now.graph_types.now met.new }
    ensures begins { take (length met.old) met.new ≡ met.old }
{
    match incoming.in_graph(index) {
        Some(id) => leads_to_resource(incoming.graph_types.as_slice(), met, id),
        None => Ok(is_resource(&incoming.types.at(index).kind)),
    }
}

/// Notes whether a type leads to a resource, for it and for all on its way of which nothing is known.
fn note_way(incoming: &Incoming<'_>, known: &mut Items<Option<bool>>, index: usize, leads: bool)
    requires can { CanComeIn incoming.now }
    requires long { length known.old ≡ length incoming.now.types.now }
    requires remapped { IsRemapped incoming.now.ids.now index }
    ensures long { length known.new ≡ length incoming.now.types.now }
    ensures told { (functions : List Function) (r : ValueRemap) → IsRemap incoming.now functions r
        → AreTold r known.old → leads_in r index ≡ leads → AreTold r known.new }
{
    let mut current = index;
    while let Some(target) = next(incoming, known, current) {
        known.set(current, Some(leads));
        current = target.index();
    }
    known.set(current, Some(leads));
}

/// The next type on the way: what a new one names as an alias, if nothing is known of it.
fn next(incoming: &Incoming<'_>, known: &Items<Option<bool>>, index: usize) -> Option<TypeId>
    requires long { length known.now ≡ length incoming.now.types.now }
    requires there { index < length incoming.now.types.now }
    ensures some { (target : ℕ) → result ≡ Some target
        → NamesNext incoming.now known.now index target }
    ensures none { result ≡ None → EndsWay incoming.now known.now index }
{
    match *known.at(index) {
        Some(_) => None,
        None => incoming.new_alias(index),
    }
}
