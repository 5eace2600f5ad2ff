//! The two graphs as one, as they are listed.
ghost use Rattle.std.specs.Prelude.{◌≡◌, IfOk};
ghost use Rattle.wit_merge_spec.specs.Merged.{joined_graph, value_remap};
ghost use Rattle.wit_merge.specs.steps.MergeSteps.{CanMerge, merging_of};
ghost use Rattle.wit_remap_spec.specs.steps.Parts.{owns as owns_of};

use crate::counterparts::counterparts;
use crate::interfaces::joined_interfaces;
use crate::merge_plan::MergePlan;
use crate::packages::{joined_names, joined_packages};
use crate::types::joined_types;
use crate::worlds::joined_worlds;
use std::alloc::{AllocError, Global};
use wit_data::{Items, TypeDef};
use wit_graph_data::Graph;

/// The two graphs as one, with the lists of worlds as they were listed.
pub(crate) fn joined_graph(
    alloc: Global,
    plan: &MergePlan<'_>,
    owns: Items<TypeDef>,
) -> Result<Graph, AllocError>
    requires ready { CanMerge plan.now }
    requires owns { owns ≡ owns_of (value_remap (merging_of plan.now)) }
    ensures { IfOk result (λ joined. joined ≡ joined_graph (merging_of plan.now)) }
{
    let found = &plan.matches.interfaces;
    let counterparts = counterparts(alloc, found, plan.graph.interfaces.len())?;
    let types = joined_types(alloc, plan, &counterparts, owns)?;
    let interfaces = joined_interfaces(alloc, plan, &counterparts)?;
    let worlds = joined_worlds(alloc, plan, &counterparts)?;
    let packages = joined_packages(alloc, plan, &counterparts)?;
    Ok(Graph {
        types,
        interfaces,
        worlds,
        packages,
        package_names: joined_names(plan)?,
    })
}
