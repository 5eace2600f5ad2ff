//! The packages of two graphs as one.
ghost use Rattle.std.specs.Prelude.{◌≡◌, ◌++◌, IfOk, OnOk, map};
ghost use Rattle.wit_values.specs.Table.{HasDistinctKeys};
ghost use Rattle.wit_remap_spec.specs.Selected.{selected};
ghost use Rattle.wit_merge_spec.specs.Merged.{joined_graph, package_image};
ghost use Rattle.wit_merge.specs.steps.Behind.{new_names};
ghost use Rattle.wit_merge.specs.steps.MergeSteps.{moved_names, CanMerge, KnowsCounterparts, merging_of};
ghost use Rattle.wit_merge_spec.specs.steps.Parts.{moves_package};

use crate::merge_plan::MergePlan;
use crate::names::{moves, push_moved};
use crate::parts::{Part, joined_list, move_all};
use std::alloc::{AllocError, Global};
use wit_data::{Items, Names, PackageId, PackageName, Table, TryClone};
use wit_graph_data::Package;

/// Behind the interfaces and worlds of one that stays come those of the other that move.
impl Part for Package {
    ghost use Rattle.wit_merge_spec.specs.Merged.{package_image, with_package};
    ghost use Rattle.wit_merge.specs.steps.MergeSteps.{PackageJoins, PackageMoves};

    ghost can_move = { PackageMoves };

    ghost image = { λ m e. package_image m e.1 };

    ghost can_join = { PackageJoins };

    ghost with_matched = { λ m p into. with_package m p.1 into };

    fn moved(&self, plan: &MergePlan<'_>) -> Result<Package, AllocError> {
        let alloc = self.interfaces.allocator();
        let mut moved = Package {
            name: self.name.try_clone()?,
            docs: self.docs.try_clone()?,
            interfaces: Names::new(alloc),
            worlds: Names::new(alloc),
        };
        push_tables(plan, &mut moved, self)?;
        Ok(moved)
    }

    fn joined(
        &self,
        plan: &MergePlan<'_>,
        _counterparts: &Items<Option<usize>>,
        from: &Package,
    ) -> Result<Package, AllocError> {
        let mut joined = self.try_clone()?;
        push_tables(plan, &mut joined, from)?;
        Ok(joined)
    }
}

/// Adds the interfaces and worlds of a package of the other graph that move.
fn push_tables(plan: &MergePlan<'_>, into: &mut Package, from: &Package) -> Result<(), AllocError>
    requires interfaces { HasDistinctKeys (into.old.interfaces
        ++ moved_names plan.now.matches.now.interfaces plan.now.merge_ids.now.new_ids.interfaces
        from.now.interfaces) }
    requires worlds { HasDistinctKeys (into.old.worlds
        ++ moved_names plan.now.matches.now.worlds plan.now.merge_ids.now.new_ids.worlds
        from.now.worlds) }
    ensures { OnOk result (into.new ≡ record into.old {
      interfaces = into.old.interfaces
          ++ moved_names plan.now.matches.now.interfaces plan.now.merge_ids.now.new_ids.interfaces
          from.now.interfaces;
      worlds = into.old.worlds
          ++ moved_names plan.now.matches.now.worlds plan.now.merge_ids.now.new_ids.worlds
          from.now.worlds;
    }) }
{
    let (matches, new_ids) = (plan.matches, &plan.merge_ids.new_ids);
    push_moved(
        &mut into.interfaces,
        &from.interfaces,
        &matches.interfaces,
        &new_ids.interfaces,
    )?;
    push_moved(
        &mut into.worlds,
        &from.worlds,
        &matches.worlds,
        &new_ids.worlds,
    )
}

/// The packages of the two as one.
pub(crate) fn joined_packages(
    alloc: Global,
    plan: &MergePlan<'_>,
    counterparts: &Items<Option<usize>>,
) -> Result<Items<Package>, AllocError>
    requires ready { CanMerge plan.now }
    requires counterparts { KnowsCounterparts plan.now counterparts.now }
    ensures { IfOk result (λ packages. packages ≡ (joined_graph (merging_of plan.now)).packages) }
{
    let found = &plan.matches.packages;
    let others = &plan.other.packages;
    let ours = &plan.graph.packages;
    joined_list(alloc, plan, counterparts, found, others, ours)
}

/// The names of the packages of the two as one.
pub(crate) fn joined_names(
    plan: &MergePlan<'_>,
) -> Result<Table<PackageName, PackageId>, AllocError>
    requires { CanMerge plan.now }
    ensures { IfOk result (λ names. names ≡ (joined_graph (merging_of plan.now)).package_names) }
{
    let mut names = plan.graph.package_names.try_clone()?;
    for (name, id) in plan.other.package_names.iter() {
        if moves(&plan.matches.packages, id.index()) {
            names.push(name.try_clone()?, plan.merged_package(*id))?;
        }
    }
    Ok(names)
}

/// The packages that move.
pub(crate) fn moved_packages(
    alloc: Global,
    plan: &MergePlan<'_>,
) -> Result<Items<Package>, AllocError>
    requires { CanMerge plan.now }
    ensures { IfOk result (λ packages.
        packages
        ≡ map (package_image (merging_of plan.now))
        (selected (moves_package (merging_of plan.now)) plan.now.other.now.packages)) }
{
    move_all(alloc, plan, &plan.matches.packages, &plan.other.packages)
}

/// The names of the packages that move.
pub(crate) fn moved_names(
    alloc: Global,
    plan: &MergePlan<'_>,
) -> Result<Items<(PackageName, PackageId)>, AllocError>
    requires { CanMerge plan.now }
    ensures { IfOk result (λ names. names ≡ new_names (merging_of plan.now)) }
{
    let mut names = Items::new(alloc);
    for (name, id) in plan.other.package_names.iter() {
        if moves(&plan.matches.packages, id.index()) {
            names.push((name.try_clone()?, plan.merged_package(*id)))?;
        }
    }
    Ok(names)
}
