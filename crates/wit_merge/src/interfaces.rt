//! The interfaces of two graphs as one.
ghost use Rattle.std.specs.Prelude.{◌≡◌, ◌++◌, IfOk, OnOk, map};
ghost use Rattle.wit_remap_spec.specs.Image.{function_image, interface_image};
ghost use Rattle.wit_merge_spec.specs.Merged.{merge_maps, joined_graph};
ghost use Rattle.wit_merge.specs.steps.MergeSteps.{FunctionMoves, FunctionsMove, brought_matched, functions_image, CanMerge, KnowsCounterparts, merging_of};
ghost use Rattle.wit_values.specs.Table.{HasDistinctKeys};
ghost use Rattle.wit_merge_spec.specs.steps.Parts.{moved_interfaces};

use crate::merge_plan::MergePlan;
use crate::names::push_moved;
use crate::parts::{Part, joined_list, move_all};
use crate::stabilities::join_stability;
use std::alloc::{AllocError, Global};
use wit_data::{Function, Interface, Items, Names, TryClone};
use wit_remap::Update;

/// One that moves takes its place; one that stays gets what the other brings behind what it has, and the stability of
/// the other is joined to its own.
impl Part for Interface {
    ghost use Rattle.wit_merge_spec.specs.Merged.{with_interface};
    ghost use Rattle.wit_merge.specs.steps.MergeSteps.{InterfaceJoins, InterfaceMoves};

    ghost can_move = { InterfaceMoves };

    ghost image = { λ m e. interface_image (merge_maps m) e.1 };

    ghost can_join = { InterfaceJoins };

    ghost with_matched = { λ m p into. with_interface m p.1 into };

    fn moved(&self, plan: &MergePlan<'_>) -> Result<Interface, AllocError> {
        let mut moved = self.try_clone()?;
        moved.update(&plan.mover(self.package));
        Ok(moved)
    }

    fn joined(
        &self,
        plan: &MergePlan<'_>,
        _counterparts: &Items<Option<usize>>,
        from: &Interface,
    ) -> Result<Interface, AllocError> {
        let mut joined = self.try_clone()?;
        let found = &plan.matches.types;
        push_moved(
            &mut joined.types,
            &from.types,
            found,
            &plan.merge_ids.new_ids.types,
        )?;
        push_functions(
            plan,
            &mut joined.functions,
            &self.functions,
            &from.functions,
        )?;
        join_stability(&mut joined.stability, &from.stability)?;
        Ok(joined)
    }
}

/// Adds those functions of another interface whose names aren't among the known ones, with new ids and spans.
fn push_functions(
    plan: &MergePlan<'_>,
    into: &mut Names<Function>,
    known: &Names<Function>,
    from: &Names<Function>,
) -> Result<(), AllocError>
    requires ready { CanMerge plan.now }
    requires functions { FunctionsMove (merging_of plan.now) from.now }
    requires apart { HasDistinctKeys
        (into.old ++ functions_image (merging_of plan.now) (brought_matched known.now from.now)) }
    ensures { OnOk result (into.new
        ≡ into.old
        ++ functions_image (merging_of plan.now) (brought_matched known.now from.now)) }
{
    let alloc = into.allocator();
    for (name, function) in from.iter() {
        if !known.contains_key(name) {
            let moved = moved_function(plan, function)?;
            into.push(String::from_str(alloc, name)?, moved)?;
        }
    }
    Ok(())
}

/// A function with new ids and spans.
fn moved_function(plan: &MergePlan<'_>, function: &Function) -> Result<Function, AllocError>
    requires ready { CanMerge plan.now }
    requires moves { FunctionMoves (merging_of plan.now) function.now }
    ensures { IfOk result
        (λ moved. moved ≡ function_image (merge_maps (merging_of plan.now)) function.now) }
{
    let mut moved = function.try_clone()?;
    moved.update(&plan.mover(None));
    Ok(moved)
}

/// The interfaces of the two as one.
pub(crate) fn joined_interfaces(
    alloc: Global,
    plan: &MergePlan<'_>,
    counterparts: &Items<Option<usize>>,
) -> Result<Items<Interface>, AllocError>
    requires ready { CanMerge plan.now }
    requires counterparts { KnowsCounterparts plan.now counterparts.now }
    ensures { IfOk result
        (λ interfaces. interfaces ≡ (joined_graph (merging_of plan.now)).interfaces) }
{
    let found = &plan.matches.interfaces;
    let others = &plan.other.interfaces;
    let ours = &plan.graph.interfaces;
    joined_list(alloc, plan, counterparts, found, others, ours)
}

/// The interfaces that move.
pub(crate) fn moved_interfaces(
    alloc: Global,
    plan: &MergePlan<'_>,
) -> Result<Items<Interface>, AllocError>
    requires { CanMerge plan.now }
    ensures { IfOk result (λ interfaces.
        interfaces
        ≡ map (interface_image (merge_maps (merging_of plan.now)))
        (moved_interfaces (merging_of plan.now))) }
{
    move_all(
        alloc,
        plan,
        &plan.matches.interfaces,
        &plan.other.interfaces,
    )
}
