//! Functions that return a borrow.
ghost use Rattle.std.specs.Prelude.{◌≡◌, ◌⊎◌, IfErr, OnOk};
ghost use Rattle.std.specs.Option.{option_to_list};
ghost use Rattle.wit_data.specs.Kind.{named_option};
ghost use Rattle.wit_data.specs.Shape.{IsShaped};
ghost use Rattle.wit_elaboration.specs.Valid.{IsValid};
ghost use Rattle.wit_graph_data.specs.declared.error_kind.ResolveErrorKind.TheVariants.{OutOfMemory};
ghost use Rattle.wit_link_spec.specs.steps.AdditionRefs.{activity_of, addition_of, new_ids_of};
ghost use Rattle.wit_link_spec.specs.Cause.{IsAdditionCause};
ghost use Rattle.wit_link_spec.specs.steps.Passed.{ReturnsNoBorrow};
ghost use Rattle.wit_link_spec.specs.Reasons.{IsActiveFunction, IsResolved};
ghost use Rattle.wit_link_resources.specs.steps.Borrows.{AreFreeOfUnresolved, AreFreeTypes, ReturnsNone};

use crate::borrows::{Free, may_hold_borrow};
use crate::functions::active_functions;
use crate::refusal::borrow_in_result;
use std::alloc::Global;
use wit_data::{Function, Type_, TypeId};
use wit_graph_data::ResolveResult;
use wit_link_spec::{Activity, AdditionRef, NewIds};

/// Refuses a function whose result holds a borrow (15). The package has its shape, the graph is valid, what is active
/// of the package and what it is remapped to is told by `activity` of wit_link_lookup and `new_ids_of` of
/// wit_link_lookup, and none of 1 to 3 and 9 to 13 holds against the addition. A span that would be told and ends past
/// 4294967295 is refused (27), and else want of memory (28) alone.
///
/// It takes a step for each function of the package that is active, and for each type that their results hold, of the
/// package and of the graph, once for all functions.
///
/// Source: `update_function` of wit-parser 0.263.0.
pub fn check_results(
    alloc: Global,
    addition: &AdditionRef<'_>,
    activity: &Activity,
    new_ids: &NewIds,
) -> ResolveResult<()>
    requires shaped { IsShaped addition.now.unresolved.now }
    requires valid { IsValid addition.now.graph.now }
    requires activity { activity.now ≡ activity_of (addition_of addition.now) }
    requires new_ids { new_ids.now ≡ new_ids_of (addition_of addition.now) }
    requires image { IsResolved (addition_of addition.now) }
    ensures no_borrow { OnOk result (ReturnsNoBorrow (addition_of addition.now)) }
    ensures cause { IfErr result
        (λ kind. (kind ≡ OutOfMemory) ⊎ IsAdditionCause (addition_of addition.now) kind) }
{
    let functions = active_functions(alloc, addition, activity)?;
    let mut free = Free::new(alloc);
    for function in &functions {
        check_result(alloc, addition, new_ids, &mut free, function)?;
    }
    Ok(())
}

/// Refuses one function that is active, where its result holds a borrow.
fn check_result(
    alloc: Global,
    addition: &AdditionRef<'_>,
    new_ids: &NewIds,
    free: &mut Free,
    function: &Function,
) -> ResolveResult<()>
    requires shaped { IsShaped addition.now.unresolved.now }
    requires valid { IsValid addition.now.graph.now }
    requires new_ids { new_ids.now ≡ new_ids_of (addition_of addition.now) }
    requires image { IsResolved (addition_of addition.now) }
    requires active { IsActiveFunction (addition_of addition.now) function.now }
    requires unresolved { AreFreeOfUnresolved (addition_of addition.now) free.old.unresolved.keys }
    requires graph { AreFreeTypes addition.now.graph.now.types free.old.graph.keys }
    ensures none { OnOk result (ReturnsNone (addition_of addition.now) function.now) }
    ensures unresolved { OnOk result
        (AreFreeOfUnresolved (addition_of addition.now) free.new.unresolved.keys) }
    ensures graph { OnOk result (AreFreeTypes addition.now.graph.now.types free.new.graph.keys) }
    ensures cause { IfErr result
        (λ kind. (kind ≡ OutOfMemory) ⊎ IsAdditionCause (addition_of addition.now) kind) }
{
    let Some(id) = result_type(function) else {
        return Ok(());
    };
    if may_hold_borrow(alloc, addition, new_ids, free, id)? {
        return Err(borrow_in_result(alloc, function, addition.offset)?);
    }
    Ok(())
}

/// The type that a function returns, None for a primitive and where it returns nothing.
pub fn result_type(function: &Function) -> Option<TypeId>
    ensures { option_to_list result ≡ named_option function.now.result_ }
{
    match function.result_? {
        Type_::Id(id) => Some(id),
        _ => None,
    }
}
