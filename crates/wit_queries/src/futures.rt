//! The futures and streams of a function.
ghost use Rattle.std.specs.Prelude.{◌≡◌, ◌++◌, ◌<◌, [], All, Contains, IfErr, IfOk, OnOk, ℕ, false, filter, length, nat_eq};
ghost use Rattle.std.specs.List.{flat_map, list_any};
ghost use Rattle.wit_graph_data.specs.Queries.{futures_and_streams};
ghost use Rattle.wit_graph_data.specs.declared.error_kind.ResolveErrorKind.TheVariants.{OutOfMemory};
ghost use Rattle.wit_data.specs.Kind.{named_type, type_references, signature_types};
ghost use Rattle.wit_queries.specs.steps.Unfolding.{KeepsOthers, OthersHoldNone, futures_of, places_within};
ghost use Rattle.wit_digraph.specs.Relation.{IsAcyclic};
ghost use Rattle.wit_digraph.specs.PostOrder.{first_of_each, post_order};
ghost use Rattle.wit_digraph.specs.steps.PostOrder.{UsesFirst};
ghost use Rattle.wit_graph_data.specs.steps.Parts.{is_future};

use crate::contents::type_contents;
use std::alloc::{AllocError, Global};
use wit_data::{Function, Type_, TypeDef, TypeDefKind, TypeId};
use wit_digraph::{Listing, direct_uses, post_order_of_roots};
use wit_graph_data::{Graph, ResolveResult};
use wit_values::Items;

/// The futures and streams that the values of a function's parameters and of its result hold: of
/// the parameters in order, then of the result, those inside others before them, with repeats. What
/// a handle or a resource stands for isn't part of a value. Types refer to types that are there,
/// and none to itself, through whatever others, as in a valid graph. The only refusal is want of
/// memory (28).
///
/// It takes a step for each type of the graph, and for each answer one for each type on the way to
/// it.
///
/// Source: `find_futures_and_streams` of wit-parser 0.263.0.
pub fn find_futures_and_streams(
    alloc: Global,
    graph: &Graph,
    function: &Function,
) -> ResolveResult<Vec<TypeId>>
    requires acyclic { IsAcyclic (type_references graph.now.types) }
    ensures found { IfOk result
        (λ found. found.items ≡ futures_and_streams graph.now.types function.now) }
    ensures memory { IfErr result (λ e. e ≡ OutOfMemory) }
{
    let types = graph.types.as_slice();
    let places = signature_places(alloc, types.len(), function)?;
    if places.is_empty() {
        return Ok(Vec::new(alloc));
    }
    let held = type_contents(alloc, types)?;
    Ok(futures_below(alloc, types, held.as_slice(), places.as_slice())?)
}

/// Whether a type is among the futures and streams that the values of a function's parameters and
/// of its result hold. Types refer to types that are there, and none to itself, through whatever
/// others, as in a valid graph. The only refusal is want of memory (28).
///
/// It takes a step for each type of the graph, however many ways lead to it.
pub fn holds_future_or_stream(
    alloc: Global,
    graph: &Graph,
    function: &Function,
    ty: TypeId,
) -> ResolveResult<bool>
    requires acyclic { IsAcyclic (type_references graph.now.types) }
    ensures told { IfOk result
        (λ told. told ≡ list_any (nat_eq ty) (futures_and_streams graph.now.types function.now)) }
    ensures memory { IfErr result (λ e. e ≡ OutOfMemory) }
{
    let types = graph.types.as_slice();
    if !is_future(types, ty.index()) {
        return Ok(false);
    }
    let places = signature_places(alloc, types.len(), function)?;
    let held = type_contents(alloc, types)?;
    let order = post_order_of_roots(alloc, held.as_slice(), places.as_slice())?;
    Ok(is_among(order.as_slice(), ty.index()))
}

/// Whether an id is one of some.
fn is_among(places: &[usize], place: usize) -> bool
    ensures { result ≡ list_any (nat_eq place) places.now }
{
    places.iter().any(|candidate| place == *candidate)
}

/// The types of a function's parameters and of its result, those that are there.
fn signature_places(
    alloc: Global,
    count: usize,
    function: &Function,
) -> Result<Items<usize>, AllocError>
    ensures { IfOk result (λ places. places ≡ places_within count (signature_types function.now)) }
{
    let mut places = Items::new(alloc);
    for param in function.params.as_slice() {
        push_place(&mut places, count, param.ty)?;
    }
    if let Some(ty) = function.result_ {
        push_place(&mut places, count, ty)?;
    }
    Ok(places)
}

/// Adds the type that a value names, where it is there.
fn push_place(places: &mut Items<usize>, count: usize, ty: Type_) -> Result<(), AllocError>
    ensures { OnOk result (places.new ≡ places.old ++ places_within count (named_type ty)) }
{
    match ty {
        Type_::Id(id) => {
            if id.index() < count {
                places.push(id.index())
            } else {
                Ok(())
            }
        }
        _ => Ok(()),
    }
}

/// Whether the type of an id is a future or a stream.
fn is_future(types: &[TypeDef], place: usize) -> bool
    ensures { result ≡ is_future types.now place }
{
    match types.get(place) {
        Some(def) => matches!(def.kind, TypeDefKind::Future(_) | TypeDefKind::Stream(_)),
        None => false,
    }
}

/// The futures and streams that the values of some types hold.
fn futures_below(
    alloc: Global,
    types: &[TypeDef],
    held: &[Items<usize>],
    roots: &[usize],
) -> Result<Vec<TypeId>, AllocError>
    requires acyclic { IsAcyclic held.now }
    requires roots { All (λ t. t < length held.now) roots.now }
    ensures { IfOk result
        (λ found. found.items ≡ flat_map (futures_of types.now held.now) roots.now) }
{
    let order = post_order_of_roots(alloc, held, roots)?;
    let holding = mark_holding(alloc, types, held, order.as_slice())?;
    unfold(alloc, types, held, &holding, roots)
}

/// Marks the types of an order, in which each stands after what its values hold, that are futures or
/// streams or hold some.
fn mark_holding(
    alloc: Global,
    types: &[TypeDef],
    held: &[Items<usize>],
    order: &[usize],
) -> Result<Listing, AllocError>
    requires acyclic { IsAcyclic held.now }
    requires in_range { All (λ t. t < length held.now) order.now }
    requires uses_first { UsesFirst held.now [] order.now }
    ensures nodes { IfOk result (λ marked. marked.nodes ≡ length held.now) }
    ensures others { IfOk result
        (λ marked. OthersHoldNone types.now held.now order.now marked.order) }
{
    let mut marked = Listing::new(alloc, held.len())?;
    for place in order {
        mark(types, held, &mut marked, *place)?;
    }
    Ok(marked)
}

/// Marks a type, where it isn't marked and is a future or a stream or holds a marked one.
fn mark(
    types: &[TypeDef],
    held: &[Items<usize>],
    marked: &mut Listing,
    place: usize,
) -> Result<(), AllocError>
    requires acyclic { IsAcyclic held.now }
    requires nodes { marked.old.nodes ≡ length held.now }
    requires in_range { place < length held.now }
    ensures nodes { marked.new.nodes ≡ marked.old.nodes }
    ensures others { OnOk result
        (KeepsOthers types.now held.now marked.old.order marked.new.order place) }
{
    if marked.has(place) {
        return Ok(());
    }
    if is_future(types, place) || has_any(marked, direct_uses(held, place)) {
        marked.push(place)?;
    }
    Ok(())
}

/// Whether any of some types is marked.
fn has_any(marked: &Listing, places: &[usize]) -> bool
    requires { All (λ t. t < marked.now.nodes) places.now }
    ensures { result ≡ false → (t : ℕ) → Contains places.now t → Contains marked.now.order t → ⊥ }
{
    for place in places {
        if marked.has(*place) {
            return true;
        }
    }
    false
}

/// The futures and streams that the values of the roots hold, told from the last one on.
///
/// A type on the stack stands for its walk. Its end is the type itself, and before that come the walks
/// of what its values hold, the last one first; what holds none isn't entered.
fn unfold(
    alloc: Global,
    types: &[TypeDef],
    held: &[Items<usize>],
    holding: &Listing,
    roots: &[usize],
) -> Result<Vec<TypeId>, AllocError>
    requires acyclic { IsAcyclic held.now }
    requires nodes { holding.now.nodes ≡ length held.now }
    requires roots { All (λ t. t < length held.now) roots.now }
    requires others { OthersHoldNone types.now held.now
        (first_of_each (flat_map (post_order held.now) roots.now)) holding.now.order }
    ensures { IfOk result
        (λ found. found.items ≡ flat_map (futures_of types.now held.now) roots.now) }
{
    let mut found = Vec::new(alloc);
    let mut stack = Items::new(alloc);
    push_holding(&mut stack, holding, roots)?;
    while let Some(place) = stack.pop() {
        if is_future(types, place) {
            found.push(TypeId::from_index(place))?;
        }
        push_holding(&mut stack, holding, direct_uses(held, place))?;
    }
    found.reverse();
    Ok(found)
}

/// Puts types on the stack, in order, those that are marked.
fn push_holding(
    stack: &mut Items<usize>,
    holding: &Listing,
    places: &[usize],
) -> Result<(), AllocError>
    requires { All (λ t. t < holding.now.nodes) places.now }
    ensures { OnOk result (stack.new
        ≡ stack.old ++ filter (λ t. list_any (nat_eq t) holding.now.order) places.now) }
{
    for place in places {
        if holding.has(*place) {
            stack.push(*place)?;
        }
    }
    Ok(())
}
