//! Which types hold a borrow.
ghost use Rattle.std.specs.Prelude.{◌≡◌, ◌++◌, ◌<◌, ◌↔◌, [], false, IfOk, IsTrue, OnOk, ℕ, length};
ghost use Rattle.wit_digraph.specs.Relation.{IsAcyclic};
ghost use Rattle.wit_data.specs.Kind.{type_references};
ghost use Rattle.wit_data.specs.Shape.{IsShaped};
ghost use Rattle.wit_data.specs.declared.types.Handle.TheVariants as handle;
ghost use Rattle.wit_data.specs.declared.types.TypeDefKind.TheVariants as kinds;
ghost use Rattle.wit_elaboration.specs.Valid.{IsValid};
ghost use Rattle.wit_link_spec.specs.steps.AdditionRefs.{addition_of, new_ids_of};
ghost use Rattle.wit_remap_spec.specs.Borrows.{HoldsBorrow};
ghost use Rattle.wit_link_resources.specs.steps.Borrows.{AreFreeOfUnresolved, AreFreeTypes, IsBorrowThere};
ghost use Rattle.wit_graph_data.specs.steps.Parts.{content_types};
ghost use Rattle.wit_link_spec.specs.steps.Parts.{MayHoldBorrow};

use indexmap::IndexSet;
use std::alloc::{AllocError, Global};
use wit_data::{Handle, Items, PartRole, TypeDef, TypeDefKind, TypeId, part_role, referred};
use wit_link_spec::{AdditionRef, NewIds};

/// Types that are known to hold no borrow, as ids: of the package, and of the graph.
#[derive(Drop)]
pub(crate) struct Free {
    pub(crate) unresolved: IndexSet<usize>,
    pub(crate) graph: IndexSet<usize>,
}

impl Free {
    /// Nothing is known.
    pub(crate) fn new(alloc: Global) -> Free
        ensures unresolved { result.unresolved.keys ≡ [] }
        ensures graph { result.graph.keys ≡ [] }
    {
        Free {
            unresolved: IndexSet::new(alloc),
            graph: IndexSet::new(alloc),
        }
    }
}

fn is_borrow(kind: &TypeDefKind) -> bool
    ensures { IsTrue result ↔ ((r : ℕ) × (kind.now ≡ kinds.Handle (handle.Borrow r))) }
{
    matches!(kind, TypeDefKind::Handle(Handle::Borrow(_)))
}

/// Puts what the values of a kind hold on a stack.
fn push_held(alloc: Global, stack: &mut Items<usize>, kind: &TypeDefKind) -> Result<(), AllocError>
    ensures { OnOk result (stack.new ≡ stack.old ++ content_types kind.now) }
{
    match part_role(kind) {
        PartRole::Argument => Ok(()),
        _ => push_places(stack, referred(alloc, kind)?.as_slice()),
    }
}

fn push_places(stack: &mut Items<usize>, ids: &[TypeId]) -> Result<(), AllocError>
    ensures { OnOk result (stack.new ≡ stack.old ++ ids.now) }
{
    for id in ids {
        stack.push(id.index())?;
    }
    Ok(())
}

/// Whether the values of a type of a graph hold a borrow. The type is there, types refer to types that are there, and
/// none to itself, through whatever others, as in a valid graph. `free` has types, by their ids, that are known to
/// hold none, with all that these hold; they aren't entered. Where the answer is no, more are known. After another
/// answer, and after want of memory, which is the only error, the set isn't to be used again.
///
/// Source: `type_has_borrow` of wit-parser 0.263.0.
pub fn holds_borrow(
    alloc: Global,
    types: &[TypeDef],
    free: &mut IndexSet<usize>,
    id: TypeId,
) -> Result<bool, AllocError>
    requires acyclic { IsAcyclic (type_references types.now) }
    requires there { id < length types.now }
    requires free { AreFreeTypes types.now free.old.keys }
    ensures holds { IfOk result (λ holds. IsTrue holds ↔ HoldsBorrow types.now id) }
    ensures free { IfOk result (λ holds. holds ≡ false → AreFreeTypes types.now free.new.keys) }
{
    let mut stack = Items::new(alloc);
    stack.push(id.index())?;
    while let Some(place) = stack.pop() {
        if free.insert(place)? {
            let kind = &types[place].kind;
            if is_borrow(kind) {
                return Ok(true);
            }
            push_held(alloc, &mut stack, kind)?;
        }
    }
    Ok(false)
}

/// Whether a type of the package is a borrow, or goes to a type of the graph that holds one.
fn is_borrow_there(
    alloc: Global,
    addition: &AdditionRef<'_>,
    new_ids: &NewIds,
    free: &mut IndexSet<usize>,
    index: usize,
) -> Result<bool, AllocError>
    requires shaped { IsShaped addition.now.unresolved.now }
    requires valid { IsValid addition.now.graph.now }
    requires new_ids { new_ids.now ≡ new_ids_of (addition_of addition.now) }
    requires there { index < length addition.now.unresolved.now.types }
    requires free { AreFreeTypes addition.now.graph.now.types free.old.keys }
    ensures holds { IfOk result
        (λ holds. IsTrue holds ↔ IsBorrowThere (addition_of addition.now) index) }
    ensures free { IfOk result
        (λ holds. holds ≡ false → AreFreeTypes addition.now.graph.now.types free.new.keys) }
{
    if index < addition.unresolved.unknown_type_spans.len() {
        match *new_ids.types.at(index) {
            Some(found) => holds_borrow(alloc, addition.graph.types.as_slice(), free, found),
            None => Ok(false),
        }
    } else {
        Ok(is_borrow(&addition.unresolved.types.at(index).kind))
    }
}

/// Whether the values of a type of the package hold a borrow, one of the package or, in a type of another
/// package, one of the graph. What is known to hold none isn't entered, and more becomes known where it holds
/// none: so all calls together take a step for each type that they meet and for each that one holds.
pub(crate) fn may_hold_borrow(
    alloc: Global,
    addition: &AdditionRef<'_>,
    new_ids: &NewIds,
    free: &mut Free,
    id: TypeId,
) -> Result<bool, AllocError>
    requires shaped { IsShaped addition.now.unresolved.now }
    requires valid { IsValid addition.now.graph.now }
    requires new_ids { new_ids.now ≡ new_ids_of (addition_of addition.now) }
    requires there { id < length addition.now.unresolved.now.types }
    requires unresolved { AreFreeOfUnresolved (addition_of addition.now) free.old.unresolved.keys }
    requires graph { AreFreeTypes addition.now.graph.now.types free.old.graph.keys }
    ensures holds { IfOk result
        (λ holds. IsTrue holds ↔ MayHoldBorrow (addition_of addition.now) id) }
    ensures unresolved { IfOk result (λ holds.
        holds ≡ false
        → AreFreeOfUnresolved (addition_of addition.now) free.new.unresolved.keys) }
    ensures graph { IfOk result
        (λ holds. holds ≡ false → AreFreeTypes addition.now.graph.now.types free.new.graph.keys) }
{
    let mut stack = Items::new(alloc);
    stack.push(id.index())?;
    while let Some(place) = stack.pop() {
        if free.unresolved.insert(place)? {
            if is_borrow_there(alloc, addition, new_ids, &mut free.graph, place)? {
                return Ok(true);
            }
            push_held(alloc, &mut stack, &addition.unresolved.types.at(place).kind)?;
        }
    }
    Ok(false)
}
