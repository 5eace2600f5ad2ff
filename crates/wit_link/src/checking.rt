//! What is looked at of a package before the graph is touched.
ghost use Rattle.std.specs.Prelude.{◌≡◌, ◌⊎◌, IfErr, IfOk, OnOk};
ghost use Rattle.wit_link_spec.specs.steps.AdditionRefs.{activity_of, addition_of, new_ids_of, values_of};
ghost use Rattle.wit_link_spec.specs.Cause.{IsAdditionCause};
ghost use Rattle.wit_link_spec.specs.steps.Passed.{GatesAreMet, HasResources, IsAllFound, NeedsNothingExcluded, ReturnsNoBorrow};
ghost use Rattle.wit_elaboration.specs.Valid.{IsValid};
ghost use Rattle.wit_graph_data.specs.declared.error_kind.ResolveErrorKind.TheVariants.{OutOfMemory};
ghost use Rattle.wit_data.specs.Shape.{IsShaped};
ghost use Rattle.wit_link.specs.steps.Checked.{IsChecked};
ghost use Rattle.wit_link_resources.specs.steps.Leading.{AreRight};
ghost use Rattle.wit_remap.specs.Grown.{Begins};
ghost use Rattle.wit_link_spec.specs.steps.Parts.{AdditionOverflows};

use std::alloc::Global;
use wit_data::{Table, TypeId};
use wit_graph_data::ResolveResult;
use wit_link_lookup::{activity, check_references, check_versions, new_ids_of};
use wit_link_resources::{check_resources, check_results, values};
use wit_link_spec::{Activity, AdditionRef, NewIds, Values};

/// What is active of a package, and what its things are remapped to.
#[derive(Drop)]
pub(crate) struct Checked {
    pub(crate) activity: Activity,
    pub(crate) new_ids: NewIds,
    pub(crate) values: Values,
}

/// Refuses a package for what it and the graph tell before any world is looked at (1 to 3 and 9 to 15), else answers
/// what its things are remapped to.
#[tactic(auto, using(crate::proofs::Checks::passed_image))]
pub(crate) fn check(
    alloc: Global,
    addition: &AdditionRef<'_>,
    met: &mut Table<TypeId, bool>,
) -> ResolveResult<Checked>
    requires shaped { IsShaped addition.now.unresolved.now }
    requires valid { IsValid addition.now.graph.now }
    requires fits { AdditionOverflows (addition_of addition.now) → ⊥ }
    requires met { AreRight addition.now.graph.now.types met.old }
    ensures met { AreRight addition.now.graph.now.types met.new }
    ensures met_before { Begins met.old met.new }
    ensures checked { OnOk result (IsChecked (addition_of addition.now)) }
    ensures activity { IfOk result
        (λ checked. checked.activity ≡ activity_of (addition_of addition.now)) }
    ensures new_ids { IfOk result
        (λ checked. checked.new_ids ≡ new_ids_of (addition_of addition.now)) }
    ensures values { IfOk result
        (λ checked. checked.values ≡ values_of (addition_of addition.now)) }
    ensures cause { IfErr result
        (λ kind. (kind ≡ OutOfMemory) ⊎ IsAdditionCause (addition_of addition.now) kind) }
{
    let activity = checked_activity(alloc, addition)?;
    let new_ids = checked_ids(alloc, addition, &activity, met)?;
    let values = values(alloc, addition, &activity, &new_ids, met)?;
    Ok(Checked {
        activity,
        new_ids,
        values,
    })
}

/// Refuses a package whose gates can't be met or that needs what is left out (9 to 12), else answers what is active
/// of it.
fn checked_activity(alloc: Global, addition: &AdditionRef<'_>) -> ResolveResult<Activity>
    requires { IsShaped addition.now.unresolved.now }
    ensures activity { IfOk result (λ activity. activity ≡ activity_of (addition_of addition.now)) }
    ensures met { OnOk result (GatesAreMet (addition_of addition.now)) }
    ensures needs { OnOk result (NeedsNothingExcluded (addition_of addition.now)) }
    ensures cause { IfErr result
        (λ kind. (kind ≡ OutOfMemory) ⊎ IsAdditionCause (addition_of addition.now) kind) }
{
    let activity = activity(alloc, addition)?;
    check_versions(alloc, addition, &activity)?;
    check_references(alloc, addition, &activity)?;
    Ok(activity)
}

/// Refuses a package that names what isn't there (1 to 3 and 13), where a type has to be a resource that is none (14)
/// or a result holds a borrow (15), else answers what its things are remapped to.
#[tactic(auto, using(crate::proofs::Checks::passed_image))]
fn checked_ids(
    alloc: Global,
    addition: &AdditionRef<'_>,
    activity: &Activity,
    met: &mut Table<TypeId, bool>,
) -> ResolveResult<NewIds>
    requires shaped { IsShaped addition.now.unresolved.now }
    requires valid { IsValid addition.now.graph.now }
    requires activity { activity.now ≡ activity_of (addition_of addition.now) }
    requires gates { GatesAreMet (addition_of addition.now) }
    requires needs { NeedsNothingExcluded (addition_of addition.now) }
    requires met { AreRight addition.now.graph.now.types met.old }
    ensures met { AreRight addition.now.graph.now.types met.new }
    ensures met_before { Begins met.old met.new }
    ensures new_ids { IfOk result (λ new_ids. new_ids ≡ new_ids_of (addition_of addition.now)) }
    ensures found { OnOk result (IsAllFound (addition_of addition.now)) }
    ensures resources { OnOk result (HasResources (addition_of addition.now)) }
    ensures no_borrow { OnOk result (ReturnsNoBorrow (addition_of addition.now)) }
    ensures cause { IfErr result
        (λ kind. (kind ≡ OutOfMemory) ⊎ IsAdditionCause (addition_of addition.now) kind) }
{
    let new_ids = new_ids_of(alloc, addition, activity)?;
    check_resources(alloc, addition, &new_ids, met)?;
    check_results(alloc, addition, activity, &new_ids)?;
    Ok(new_ids)
}
