//! The types of two graphs as one.
ghost use Rattle.std.specs.Prelude.{◌≡◌, IfOk};
ghost use Rattle.wit_merge_spec.specs.Merged.{joined_graph, value_remap};
ghost use Rattle.wit_merge.specs.steps.MergeSteps.{CanMerge, KnowsCounterparts, merging_of};
ghost use Rattle.wit_remap_spec.specs.ValueRemap.{types_behind};
ghost use Rattle.wit_remap_spec.specs.steps.Parts.{owns as owns_of};

use crate::merge_plan::MergePlan;
use crate::parts::{Part, joined_list, move_all};
use crate::stabilities::join_stability;
use std::alloc::{AllocError, Global};
use wit_data::{Items, TryClone, TypeDef};
use wit_remap::Update;

/// One that moves takes its place; to one that stays the stability of the other is joined.
impl Part for TypeDef {
    ghost use Rattle.wit_remap_spec.specs.Image.{type_image};
    ghost use Rattle.wit_merge_spec.specs.Merged.{merge_maps};
    ghost use Rattle.wit_merge.specs.steps.MergeSteps.{TypeMoves};
    ghost use Rattle.wit_merge_spec.specs.steps.Parts.{with_type};

    ghost can_move = { TypeMoves };

    ghost image = { λ m e. type_image (merge_maps m) e.1 };

    ghost can_join = { λ m from into. Unit {0} };

    ghost with_matched = { λ m p into. with_type p.1 into };

    fn moved(&self, plan: &MergePlan<'_>) -> Result<TypeDef, AllocError> {
        let mut moved = self.try_clone()?;
        moved.update(&plan.mover(None));
        Ok(moved)
    }

    fn joined(
        &self,
        _plan: &MergePlan<'_>,
        _counterparts: &Items<Option<usize>>,
        from: &TypeDef,
    ) -> Result<TypeDef, AllocError> {
        let mut joined = self.try_clone()?;
        join_stability(&mut joined.stability, &from.stability)?;
        Ok(joined)
    }
}

/// The types of the two as one: those of the graph, joined with what is matched with them, then those that move, and
/// the `own`s that values ask for.
pub(crate) fn joined_types(
    alloc: Global,
    plan: &MergePlan<'_>,
    counterparts: &Items<Option<usize>>,
    owns: Items<TypeDef>,
) -> Result<Items<TypeDef>, AllocError>
    requires ready { CanMerge plan.now }
    requires counterparts { KnowsCounterparts plan.now counterparts.now }
    requires owns { owns ≡ owns_of (value_remap (merging_of plan.now)) }
    ensures { IfOk result (λ types. types ≡ (joined_graph (merging_of plan.now)).types) }
{
    let found = &plan.matches.types;
    let others = &plan.other.types;
    let ours = &plan.graph.types;
    let mut types = joined_list(alloc, plan, counterparts, found, others, ours)?;
    types.append(owns)?;
    Ok(types)
}

/// The types that come: those that move, and the `own`s that values ask for.
pub(crate) fn moved_types(
    alloc: Global,
    plan: &MergePlan<'_>,
    owns: Items<TypeDef>,
) -> Result<Items<TypeDef>, AllocError>
    requires ready { CanMerge plan.now }
    requires owns { owns ≡ owns_of (value_remap (merging_of plan.now)) }
    ensures { IfOk result (λ types. types ≡ types_behind (value_remap (merging_of plan.now))) }
{
    let mut types = move_all(alloc, plan, &plan.matches.types, &plan.other.types)?;
    types.append(owns)?;
    Ok(types)
}
