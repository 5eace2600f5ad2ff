//! Where the types of a package go.
ghost use Rattle.std.specs.Prelude.{◌≡◌, ◌⊎◌, ◌<◌, ◌+◌, IfErr, IfOk, OnOk, length, map, true};
ghost use Rattle.std.specs.List.{range_with_len};
ghost use Rattle.wit_graph_data.specs.declared.error_kind.ResolveErrorKind.TheVariants.{OutOfMemory};
ghost use Rattle.wit_data.specs.Shape.{IsShaped};
ghost use Rattle.wit_link_spec.specs.Addition.{own_type};
ghost use Rattle.wit_remap_spec.specs.Selected.{rank};
ghost use Rattle.wit_link_spec.specs.steps.AdditionRefs.{activity_of, addition_of};
ghost use Rattle.wit_link_spec.specs.Cause.{IsAdditionCause};
ghost use Rattle.wit_link_spec.specs.Gates.{type_is_active};
ghost use Rattle.wit_link_spec.specs.Lookup.{foreign_type_id, named_items};
ghost use Rattle.wit_graph_data.specs.Named.{interface_type};
ghost use Rattle.wit_link_lookup.specs.steps.ForeignItems.{AreTypesThere, IsTypeThere, found_among};
ghost use Rattle.wit_link_spec.specs.steps.Parts.{active_type_id};

use crate::foreign::Found;
use crate::new_ids::assign_id;
use crate::refusal::type_not_defined;
use std::alloc::Global;
use wit_data::{InterfaceId, Items, Text, TypeId, TypeOwner};
use wit_graph_data::{Graph, ResolveResult};
use wit_link_spec::{Activity, AdditionRef};

/// Where the types go: what is active goes to what is found of it, or, if it is the package's own, to the next
/// id. Refused where a type of another package that is active, as its interface does, isn't in that interface
/// (13).
pub(crate) fn type_ids(
    alloc: Global,
    addition: &AdditionRef<'_>,
    activity: &Activity,
    found: &Found,
) -> ResolveResult<Items<Option<TypeId>>>
    requires shaped { IsShaped addition.now.unresolved.now }
    requires activity { activity.now ≡ activity_of (addition_of addition.now) }
    requires found { found.now
        ≡ found_among (addition_of addition.now)
        (named_items addition.now.unresolved.now.foreign_deps) }
    ensures new_ids { IfOk result (λ new_ids.
        new_ids
        ≡ map (active_type_id (addition_of addition.now))
        (range_with_len 0 (length addition.now.unresolved.now.types))) }
    ensures there { OnOk result
        (AreTypesThere (addition_of addition.now) (length addition.now.unresolved.now.types)) }
    ensures cause { IfErr result
        (λ kind. (kind ≡ OutOfMemory) ⊎ IsAdditionCause (addition_of addition.now) kind) }
{
    let mut new_ids = Items::new(alloc);
    let mut next = addition.graph.types.len();
    for t in 0..addition.unresolved.types.len() {
        new_ids.push(new_type_id(alloc, addition, activity, found, t, &mut next)?)?;
    }
    Ok(new_ids)
}

/// Where one type goes, and the next id behind it.
fn new_type_id(
    alloc: Global,
    addition: &AdditionRef<'_>,
    activity: &Activity,
    found: &Found,
    t: usize,
    next: &mut usize,
) -> ResolveResult<Option<TypeId>>
    requires shaped { IsShaped addition.now.unresolved.now }
    requires activity { activity.now ≡ activity_of (addition_of addition.now) }
    requires found { found.now
        ≡ found_among (addition_of addition.now)
        (named_items addition.now.unresolved.now.foreign_deps) }
    requires inside { t < length addition.now.unresolved.now.types }
    requires next { next.old
        ≡ length addition.now.graph.now.types + rank (own_type (addition_of addition.now)) t }
    ensures id { IfOk result (λ id. id ≡ active_type_id (addition_of addition.now) t) }
    ensures next { OnOk result (next.new
        ≡ length addition.now.graph.now.types + rank (own_type (addition_of addition.now))
        (t + 1)) }
    ensures there { OnOk result (IsTypeThere (addition_of addition.now) t) }
    ensures cause { IfErr result
        (λ kind. (kind ≡ OutOfMemory) ⊎ IsAdditionCause (addition_of addition.now) kind) }
{
    let active = *activity.types.at(t);
    if active && t < addition.unresolved.unknown_type_spans.len() {
        return foreign_type(alloc, addition, activity, found, t);
    }
    Ok(assign_id(active, None, next)?)
}

/// Where the graph has a type of another package that is active.
fn foreign_type(
    alloc: Global,
    addition: &AdditionRef<'_>,
    activity: &Activity,
    found: &Found,
    t: usize,
) -> ResolveResult<Option<TypeId>>
    requires shaped { IsShaped addition.now.unresolved.now }
    requires activity { activity.now ≡ activity_of (addition_of addition.now) }
    requires found { found.now
        ≡ found_among (addition_of addition.now)
        (named_items addition.now.unresolved.now.foreign_deps) }
    requires inside { t < length addition.now.unresolved.now.types }
    requires foreign { t < length addition.now.unresolved.now.unknown_type_spans }
    requires active { type_is_active addition.now.features.now addition.now.unresolved.now.types t
        ≡ true }
    ensures id { IfOk result
        (λ id. id ≡ foreign_type_id addition.now.graph.now addition.now.unresolved.now t) }
    ensures there { OnOk result (IsTypeThere (addition_of addition.now) t) }
    ensures cause { IfErr result
        (λ kind. (kind ≡ OutOfMemory) ⊎ IsAdditionCause (addition_of addition.now) kind) }
{
    let def = addition.unresolved.types.at(t);
    let Some(name) = &def.name else {
        return Ok(None);
    };
    let TypeOwner::Interface(owner) = def.owner else {
        return Ok(None);
    };
    let Some(home) = *found.interfaces.at(owner.index()) else {
        return Ok(None);
    };
    let there = type_of(addition.graph, home, name);
    if there.is_none() && *activity.interfaces.at(owner.index()) {
        let span = *addition.unresolved.unknown_type_spans.at(t);
        return Err(type_not_defined(alloc, addition, span, name)?);
    }
    Ok(there)
}

/// The type of this name in an interface, if there is one.
fn type_of(graph: &Graph, home: InterfaceId, name: &Text) -> Option<TypeId>
    ensures { result ≡ interface_type graph.now name.now home }
{
    let home = graph.interfaces.get(home.index())?;
    home.types.get(name.as_str()).copied()
}
