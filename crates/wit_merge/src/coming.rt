//! What comes of another graph behind what a graph has.
ghost use Rattle.std.specs.Prelude.{◌≡◌, IfOk};
ghost use Rattle.wit_merge_spec.specs.Merged.{value_remap};
ghost use Rattle.wit_merge.specs.steps.Behind.{IsComing};
ghost use Rattle.wit_merge.specs.steps.MergeSteps.{CanMerge, merging_of};
ghost use Rattle.wit_remap_spec.specs.steps.Parts.{owns as owns_of};

use crate::interfaces::moved_interfaces;
use crate::merge_plan::MergePlan;
use crate::packages::{moved_names, moved_packages};
use crate::types::moved_types;
use crate::worlds::moved_worlds;
use std::alloc::{AllocError, Global};
use wit_data::{Interface, Items, PackageId, PackageName, TypeDef, World};
use wit_graph_data::Package;

/// The things of another graph that move, as they come to be where they go, with the lists of worlds as they were
/// listed, and the `own`s that values ask for.
#[derive(Drop)]
pub(crate) struct Coming {
    pub(crate) types: Items<TypeDef>,
    pub(crate) interfaces: Items<Interface>,
    pub(crate) worlds: Items<World>,
    pub(crate) packages: Items<Package>,
    pub(crate) package_names: Items<(PackageName, PackageId)>,
}

/// What comes.
pub(crate) fn moved_things(
    alloc: Global,
    plan: &MergePlan<'_>,
    owns: Items<TypeDef>,
) -> Result<Coming, AllocError>
    requires ready { CanMerge plan.now }
    requires owns { owns ≡ owns_of (value_remap (merging_of plan.now)) }
    ensures { IfOk result (IsComing (merging_of plan.now)) }
{
    let types = moved_types(alloc, plan, owns)?;
    let interfaces = moved_interfaces(alloc, plan)?;
    let worlds = moved_worlds(alloc, plan)?;
    let packages = moved_packages(alloc, plan)?;
    Ok(Coming {
        types,
        interfaces,
        worlds,
        packages,
        package_names: moved_names(alloc, plan)?,
    })
}
