//! Functions that move and return a borrow.
ghost use Rattle.std.specs.Prelude.{[], ◌∷◌, ◌≡◌, ◌⊎◌, ℕ, List, None, Contains, IfErr, IfOk, OnOk};
ghost use Rattle.wit_graph_data.specs.declared.cause.Cause.TheVariants as cause;
ghost use Rattle.wit_graph_data.specs.declared.error_kind.ResolveErrorKind.TheVariants.{OutOfMemory, Semantic};
ghost use Rattle.wit_digraph.specs.Relation.{IsAcyclic};
ghost use Rattle.wit_data.specs.Kind.{type_references};
ghost use Rattle.wit_remap_spec.specs.Borrows.{borrow_text};
ghost use Rattle.wit_merge_spec.specs.Merged.{moved_functions, joined_graph};
ghost use Rattle.wit_merge_spec.specs.Cause.{MergeReturnsBorrow};
ghost use Rattle.wit_link_resources.specs.steps.Borrows.{AreFreeTypes};
ghost use Rattle.wit_merge.specs.steps.Behind.{AreReturned, ReturnNoBorrow, ReturnsBorrow, functions_of as listed_functions};
ghost use Rattle.wit_merge.specs.steps.MergeSteps.{CanMerge, IsBorrowError, ReturnsFree, merging_of};

use crate::functions::{functions_of, moved_functions};
use crate::merge_plan::MergePlan;
use indexmap::IndexSet;
use std::alloc::{AllocError, Global};
use wit_data::{Function, Interface, Items, Span, Text, TypeDef, World};
use wit_graph_data::{Cause, ResolveError, ResolveErrorKind, ResolveResult};
use wit_link_resources::{holds_borrow, result_type};

/// Refuses a function that moves whose result holds a borrow, by the types of the two graphs as one.
///
/// It takes a step for each function that moves, and for each type that their results hold, once for all functions.
pub(crate) fn check_results(
    alloc: Global,
    plan: &MergePlan<'_>,
    types: &[TypeDef],
) -> ResolveResult<()>
    requires ready { CanMerge plan.now }
    requires types { types.now ≡ (joined_graph (merging_of plan.now)).types }
    ensures none { OnOk result
        ((message : List ℕ) → MergeReturnsBorrow (merging_of plan.now) message → ⊥) }
    ensures cause { IfErr result
        (λ kind. (kind ≡ OutOfMemory) ⊎ IsBorrowError (merging_of plan.now) kind) }
{
    let functions = moved_functions(alloc, plan.graph, plan.other, plan.matches)?;
    let mut free = IndexSet::new(alloc);
    for function in &functions {
        check_result(alloc, plan, types, &mut free, function)?;
    }
    Ok(())
}

/// Refuses one function that moves, where its result holds a borrow.
fn check_result(
    alloc: Global,
    plan: &MergePlan<'_>,
    types: &[TypeDef],
    free: &mut IndexSet<usize>,
    function: &Function,
) -> ResolveResult<()>
    requires ready { CanMerge plan.now }
    requires types { types.now ≡ (joined_graph (merging_of plan.now)).types }
    requires moved { Contains (moved_functions (merging_of plan.now)) function.now }
    requires free { AreFreeTypes types.now free.old.keys }
    ensures none { OnOk result (ReturnsFree (merging_of plan.now) function.now) }
    ensures free { OnOk result (AreFreeTypes types.now free.new.keys) }
    ensures cause { IfErr result
        (λ kind. (kind ≡ OutOfMemory) ⊎ IsBorrowError (merging_of plan.now) kind) }
{
    let Some(id) = result_type(function) else {
        return Ok(());
    };
    let place = *plan.values.at(id.index());
    if holds_borrow(alloc, types, free, place)? {
        return Err(borrow_in_result(alloc, &function.name)?);
    }
    Ok(())
}

/// 15: a function returns a borrow.
fn borrow_in_result(alloc: Global, name: &Text) -> Result<ResolveError, AllocError>
    ensures { IfOk result (λ e. e ≡ Semantic None (borrow_text name.now) cause.BorrowInResult) }
{
    let message = format!(in alloc;
        "function `{name}` returns a type which contains a `borrow<T>` which is not supported"
    )?;
    Ok(ResolveErrorKind::Semantic {
        span: Span::unknown(),
        message: Text::from_string(message),
        cause: Cause::BorrowInResult,
    }
    .into())
}

/// Refuses a function that comes whose result holds a borrow, by all types: those of interfaces that come, and then
/// those of worlds that come.
///
/// It takes a step for each function that comes, and for each type that their results hold, once for all functions.
pub(crate) fn check_returned(
    alloc: Global,
    types: &[TypeDef],
    interfaces: &Items<Interface>,
    worlds: &Items<World>,
) -> ResolveResult<()>
    requires acyclic { IsAcyclic (type_references types.now) }
    requires returned { AreReturned types.now (listed_functions interfaces.now worlds.now) }
    ensures none { OnOk result
        (ReturnNoBorrow types.now (listed_functions interfaces.now worlds.now)) }
    ensures cause { IfErr result (λ kind.
        (kind ≡ OutOfMemory)
        ⊎ ReturnsBorrow types.now (listed_functions interfaces.now worlds.now) kind) }
{
    let functions = functions_of(alloc, interfaces, worlds)?;
    let mut free = IndexSet::new(alloc);
    for function in &functions {
        check_returns(alloc, types, &mut free, function)?;
    }
    Ok(())
}

/// Refuses one function whose result holds a borrow.
fn check_returns(
    alloc: Global,
    types: &[TypeDef],
    free: &mut IndexSet<usize>,
    function: &Function,
) -> ResolveResult<()>
    requires acyclic { IsAcyclic (type_references types.now) }
    requires returned { AreReturned types.now (function.now ∷ []) }
    requires free { AreFreeTypes types.now free.old.keys }
    ensures none { OnOk result (ReturnNoBorrow types.now (function.now ∷ [])) }
    ensures free { OnOk result (AreFreeTypes types.now free.new.keys) }
    ensures cause { IfErr result
        (λ kind. (kind ≡ OutOfMemory) ⊎ ReturnsBorrow types.now (function.now ∷ []) kind) }
{
    let Some(id) = result_type(function) else {
        return Ok(());
    };
    if holds_borrow(alloc, types, free, id)? {
        return Err(borrow_in_result(alloc, &function.name)?);
    }
    Ok(())
}
