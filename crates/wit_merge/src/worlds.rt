//! The worlds of two graphs as one, as they are listed.
ghost use Rattle.std.specs.Prelude.{◌≡◌, IfOk, None, get_or, map};
ghost use Rattle.std.specs.Option.{option_copied};
ghost use Rattle.wit_values.specs.Table.{HasDistinctKeys};
ghost use Rattle.wit_merge_spec.specs.Merged.{joined_graph};
ghost use Rattle.wit_merge_spec.specs.steps.Leaving.{new_worlds};
ghost use Rattle.wit_merge.specs.steps.MergeSteps.{entry_joined, stability_joined, stability_of, stability_under, CanMerge, KnowsCounterparts, merging_of};

use crate::merge_plan::MergePlan;
use crate::parts::{Part, joined_list, move_all};
use crate::stabilities::join_stability;
use std::alloc::{AllocError, Global};
use std::mem;
use wit_data::{InterfaceId, Items, Stability, Table, TryClone, World, WorldItem, WorldKey};
use wit_remap::{Moves, updated_entries};

/// One that moves takes its place; to one that stays, and to what it holds under the keys of interfaces, the
/// stabilities of the other are joined.
impl Part for World {
    ghost use Rattle.wit_remap_spec.specs.Image.{world_image};
    ghost use Rattle.wit_merge_spec.specs.Merged.{with_world, merge_maps};
    ghost use Rattle.wit_merge.specs.steps.MergeSteps.{WorldJoins, WorldMoves};

    ghost can_move = { WorldMoves };

    ghost image = { λ m e. world_image (merge_maps m) e.0 e.1 };

    ghost can_join = { λ m from into. WorldJoins m into };

    ghost with_matched = { with_world };

    fn moved(&self, plan: &MergePlan<'_>) -> Result<World, AllocError> {
        let mover = plan.mover(self.package);
        let alloc = self.imports.allocator();
        let mut moved = self.try_clone()?;
        let imports = mem::replace(&mut moved.imports, Table::new(alloc));
        let imports = updated_entries(alloc, &mover, imports)?;
        moved.imports = imports;
        let exports = mem::replace(&mut moved.exports, Table::new(alloc));
        let exports = updated_entries(alloc, &mover, exports)?;
        moved.exports = exports;
        moved.package = Some(mover.home());
        moved.span = mover.span(moved.span);
        Ok(moved)
    }

    fn joined(
        &self,
        _plan: &MergePlan<'_>,
        counterparts: &Items<Option<usize>>,
        from: &World,
    ) -> Result<World, AllocError> {
        let imports = joined_entries(counterparts, &from.imports, &self.imports)?;
        let exports = joined_entries(counterparts, &from.exports, &self.exports)?;
        let mut joined = self.try_clone()?;
        joined.imports = imports;
        joined.exports = exports;
        join_stability(&mut joined.stability, &from.stability)?;
        Ok(joined)
    }
}

/// Copies of entries of a world, each with the stability joined to it of what stands under its key in the world that is
/// matched.
fn joined_entries(
    counterparts: &Items<Option<usize>>,
    from: &Table<WorldKey, WorldItem>,
    into: &Table<WorldKey, WorldItem>,
) -> Result<Table<WorldKey, WorldItem>, AllocError>
    requires { HasDistinctKeys into.now }
    ensures { IfOk result
        (λ joined. joined ≡ map (entry_joined counterparts.now from.now) into.now) }
{
    let mut joined = Table::new(into.allocator());
    for (key, item) in into.iter() {
        let item = joined_item(item, stability_under(counterparts, from, key))?;
        joined.push(key.try_clone()?, item)?;
    }
    Ok(joined)
}

/// A copy of what a world holds under a key, with a stability joined to it where it is an interface.
fn joined_item(item: &WorldItem, stability: Option<&Stability>) -> Result<WorldItem, AllocError>
    ensures { IfOk result
        (λ joined. joined ≡ stability_joined (option_copied stability.entry) item.now) }
{
    let mut joined = item.try_clone()?;
    if let Some(from) = stability {
        if let WorldItem::Interface { stability, .. } = &mut joined {
            join_stability(stability, from)?;
        }
    }
    Ok(joined)
}

/// The stability of what stands among entries of the other graph under the interface that is matched with the one of a
/// key.
fn stability_under<'a>(
    counterparts: &Items<Option<usize>>,
    from: &'a Table<WorldKey, WorldItem>,
    key: &WorldKey,
) -> Option<&'a Stability>
    ensures { option_copied result ≡ stability_under counterparts.now from.now key.now }
{
    match key {
        WorldKey::Name(_) => None,
        WorldKey::Interface(id) => {
            let there = WorldKey::Interface(counterpart_named(counterparts, *id)?);
            stability_of(from.get(&there)?)
        }
    }
}

/// The interface of the other graph that is matched with one of the graph.
fn counterpart_named(counterparts: &Items<Option<usize>>, id: InterfaceId) -> Option<InterfaceId>
    ensures { result ≡ get_or counterparts.now id None }
{
    match counterparts.get(id.index()) {
        Some(Some(place)) => Some(InterfaceId::from_index(*place)),
        Some(None) => None,
        None => None,
    }
}

/// The stability of an item that is an interface.
fn stability_of(item: &WorldItem) -> Option<&Stability>
    ensures { option_copied result ≡ stability_of item.now }
{
    match item {
        WorldItem::Interface { stability, .. } => Some(stability),
        WorldItem::Function(_) | WorldItem::Type_ { .. } => None,
    }
}

/// The worlds of the two as one.
pub(crate) fn joined_worlds(
    alloc: Global,
    plan: &MergePlan<'_>,
    counterparts: &Items<Option<usize>>,
) -> Result<Items<World>, AllocError>
    requires ready { CanMerge plan.now }
    requires counterparts { KnowsCounterparts plan.now counterparts.now }
    ensures { IfOk result (λ worlds. worlds ≡ (joined_graph (merging_of plan.now)).worlds) }
{
    let found = &plan.matches.worlds;
    let others = &plan.other.worlds;
    let ours = &plan.graph.worlds;
    joined_list(alloc, plan, counterparts, found, others, ours)
}

/// The worlds that move.
pub(crate) fn moved_worlds(alloc: Global, plan: &MergePlan<'_>) -> Result<Items<World>, AllocError>
    requires { CanMerge plan.now }
    ensures { IfOk result (λ worlds. worlds ≡ new_worlds (merging_of plan.now)) }
{
    move_all(alloc, plan, &plan.matches.worlds, &plan.other.worlds)
}
