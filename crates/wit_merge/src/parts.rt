//! Lists of things of two graphs as one.
ghost use Rattle.std.specs.Prelude.{◌≡◌, ◌++◌, ℕ, IfOk, None, Some, get_or, length, map, slice_get, true};
ghost use Rattle.std.specs.List.{enumerate_from};
ghost use Rattle.std.specs.Option.{option_map_or};
ghost use Rattle.wit_remap_spec.specs.Selected.{selected_with_index};
ghost use Rattle.wit_merge_match.specs.steps.Matched.{moves};
ghost use Rattle.wit_merge_spec.specs.Matches.{GraphMerge, counterpart_of};
ghost use Rattle.wit_merge.specs.steps.MergeSteps.{CanMerge, KnowsCounterparts, merging_of, placed_at};

use crate::counterparts::counterparts;
use crate::merge_plan::MergePlan;
use crate::names::moves;
use std::alloc::{AllocError, Global};
use wit_data::{Id, Items, TryClone};

/// What stands in a list of a graph.
pub(crate) trait Part: TryClone + Drop {
    /// What is asked of one that moves.
    ghost can_move: { GraphMerge → Self → Type 0 };

    /// What becomes of one that moves, which comes with its index.
    ghost image: { GraphMerge → ℕ × Self → Self };

    /// What is asked of two.
    ghost can_join: { GraphMerge → Self → Self → Type 0 };

    /// What is made of two, of which the first comes with its index.
    ghost with_matched: { GraphMerge → ℕ × Self → Self → Self };

    /// A copy as it comes to be where it goes, at whatever index of the other graph it stands.
    fn moved(&self, plan: &MergePlan<'_>) -> Result<Self, AllocError>
        requires ready { CanMerge plan.now }
        requires can { can_move (merging_of plan.now) self.now }
        ensures { IfOk result
            (λ made. (index : ℕ) → made ≡ image (merging_of plan.now) (index, self.now)) };

    /// A copy with another joined to it, at whatever index of the other graph that stands, by with which interface of that
    /// graph each one is matched.
    fn joined(
        &self,
        plan: &MergePlan<'_>,
        counterparts: &Items<Option<usize>>,
        from: &Self,
    ) -> Result<Self, AllocError>
        requires ready { CanMerge plan.now }
        requires counterparts { KnowsCounterparts plan.now counterparts.now }
        requires can { can_join (merging_of plan.now) from.now self.now }
        ensures { IfOk result (λ made.
            (index : ℕ)
            → made ≡ with_matched (merging_of plan.now) (index, from.now) self.now) };
}

/// Copies of the things of a graph, each with the one joined to it that is matched with it, if one is; and behind them
/// those of the other graph that move. With which interface of the other graph each one of the graph is matched comes in.
pub(crate) fn joined_list<S, T: Part>(
    alloc: Global,
    plan: &MergePlan<'_>,
    interfaces: &Items<Option<usize>>,
    found: &Items<Option<Id<S>>>,
    others: &Items<T>,
    ours: &Items<T>,
) -> Result<Items<T>, AllocError>
    requires ready { CanMerge plan.now }
    requires interfaces { KnowsCounterparts plan.now interfaces.now }
    requires long { length found.now ≡ length others.now }
    requires joining { (x x' : ℕ) (from into : T) → slice_get others.now x ≡ Some from
        → get_or found.now x None ≡ Some x' → slice_get ours.now x' ≡ Some into
        → T.can_join (merging_of plan.now) from into }
    requires moving { (x : ℕ) (from : T) → slice_get others.now x ≡ Some from
        → moves found.now x ≡ true → T.can_move (merging_of plan.now) from }
    ensures { IfOk result (λ made.
        made
        ≡ map (λ (e : ℕ × T).
        option_map_or (λ (p : ℕ × T). T.with_matched (merging_of plan.now) p e.1)
        (counterpart_of (λ x. get_or found.now x None) others.now e.0) e.1)
        (enumerate_from 0 ours.now)
        ++ map (T.image (merging_of plan.now))
        (selected_with_index (moves found.now) others.now)) }
{
    let mut made = join_all(alloc, plan, interfaces, found, others, ours)?;
    made.append(move_all(alloc, plan, found, others)?)?;
    Ok(made)
}

/// Those of the graph.
fn join_all<S, T: Part>(
    alloc: Global,
    plan: &MergePlan<'_>,
    interfaces: &Items<Option<usize>>,
    found: &Items<Option<Id<S>>>,
    others: &Items<T>,
    ours: &Items<T>,
) -> Result<Items<T>, AllocError>
    requires ready { CanMerge plan.now }
    requires interfaces { KnowsCounterparts plan.now interfaces.now }
    requires long { length found.now ≡ length others.now }
    requires can { (x x' : ℕ) (from into : T) → slice_get others.now x ≡ Some from
        → get_or found.now x None ≡ Some x' → slice_get ours.now x' ≡ Some into
        → T.can_join (merging_of plan.now) from into }
    ensures { IfOk result (λ made.
        made
        ≡ map (λ (e : ℕ × T).
        option_map_or (λ (p : ℕ × T). T.with_matched (merging_of plan.now) p e.1)
        (counterpart_of (λ x. get_or found.now x None) others.now e.0) e.1)
        (enumerate_from 0 ours.now)) }
{
    let counterparts = counterparts(alloc, found, ours.len())?;
    let mut made = Items::new(alloc);
    for index in 0..ours.len() {
        let into = ours.at(index);
        let place = *counterparts.at(index);
        made.push(join_one(plan, interfaces, others, place, into)?)?;
    }
    Ok(made)
}

/// A copy of a thing, with the one at an index joined to it, if there is one.
fn join_one<T: Part>(
    plan: &MergePlan<'_>,
    interfaces: &Items<Option<usize>>,
    others: &Items<T>,
    index: Option<usize>,
    into: &T,
) -> Result<T, AllocError>
    requires ready { CanMerge plan.now }
    requires interfaces { KnowsCounterparts plan.now interfaces.now }
    requires can { (x : ℕ) (from : T) → index ≡ Some x → slice_get others.now x ≡ Some from
        → T.can_join (merging_of plan.now) from into.now }
    ensures { IfOk result (λ made.
        made
        ≡ option_map_or (λ (p : ℕ × T). T.with_matched (merging_of plan.now) p into.now)
        (placed_at others.now index) into.now) }
{
    match index {
        Some(index) => match others.get(index) {
            Some(from) => into.joined(plan, interfaces, from),
            None => into.try_clone(),
        },
        None => into.try_clone(),
    }
}

/// Those that move.
pub(crate) fn move_all<S, T: Part>(
    alloc: Global,
    plan: &MergePlan<'_>,
    found: &Items<Option<Id<S>>>,
    others: &Items<T>,
) -> Result<Items<T>, AllocError>
    requires ready { CanMerge plan.now }
    requires can { (x : ℕ) (from : T) → slice_get others.now x ≡ Some from
        → moves found.now x ≡ true → T.can_move (merging_of plan.now) from }
    ensures { IfOk result (λ made.
        made
        ≡ map (T.image (merging_of plan.now))
        (selected_with_index (moves found.now) others.now)) }
{
    let mut made = Items::new(alloc);
    for (index, other) in others.as_slice().iter().enumerate() {
        if moves(found, index) {
            made.push(other.moved(plan)?)?;
        }
    }
    Ok(made)
}
