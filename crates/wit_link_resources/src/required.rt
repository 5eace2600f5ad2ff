//! Types that have to be resources.
ghost use Rattle.std.specs.Prelude.{◌≡◌, ◌⊎◌, Contains, IfErr, OnOk, length, take};
ghost use Rattle.wit_data.specs.Shape.{IsShaped};
ghost use Rattle.wit_elaboration.specs.Valid.{IsValid};
ghost use Rattle.wit_graph_data.specs.declared.error_kind.ResolveErrorKind.TheVariants.{OutOfMemory};
ghost use Rattle.wit_link_spec.specs.steps.AdditionRefs.{addition_of, new_ids_of};
ghost use Rattle.wit_link_spec.specs.Cause.{IsAdditionCause};
ghost use Rattle.wit_link_spec.specs.steps.Passed.{HasResources};
ghost use Rattle.wit_link_resources.specs.steps.Leading.{AreRight, LeadsWhereFound};

use crate::met::leads_to_resource;
use crate::refusal::not_a_resource;
use std::alloc::Global;
use wit_data::{Span, TypeId};
use wit_graph_data::ResolveResult;
use wit_link_spec::{AdditionRef, NewIds};
use wit_values::Table;

/// Refuses a type that has to be a resource and doesn't lead to one (14). The package has its
/// shape, the graph is valid, and what things are remapped to is told by `new_ids_of` of wit_link_lookup. A span that
/// would be told and ends past 4294967295 is refused (27), and else want of memory (28) alone.
///
/// It takes a step for each such type, and for each alias of the graph on the way to what they
/// name, up to one that was met; what is met on the way is noted behind that.
///
/// Source: `process_foreign_deps` of wit-parser 0.263.0.
#[tactic(auto, using(crate::specs::facts::MetTypes::begins_same, crate::specs::facts::MetTypes::begins_then))]
pub fn check_resources(
    alloc: Global,
    addition: &AdditionRef<'_>,
    new_ids: &NewIds,
    met: &mut Table<TypeId, bool>,
) -> ResolveResult<()>
    requires shaped { IsShaped addition.now.unresolved.now }
    requires valid { IsValid addition.now.graph.now }
    requires new_ids { new_ids.now ≡ new_ids_of (addition_of addition.now) }
    requires met { AreRight addition.now.graph.now.types met.old }
    ensures met { AreRight addition.now.graph.now.types met.new }
    ensures begins { take (length met.old) met.new ≡ met.old }
    ensures resources { OnOk result (HasResources (addition_of addition.now)) }
    ensures cause { IfErr result
        (λ kind. (kind ≡ OutOfMemory) ⊎ IsAdditionCause (addition_of addition.now) kind) }
{
    for &(id, span) in addition.unresolved.required_resource_types.as_slice() {
        check_required(alloc, addition, new_ids, met, id, span)?;
    }
    Ok(())
}

/// Refuses one type, where it is found in the graph and doesn't lead to a resource there.
#[tactic(auto, using(crate::specs::facts::MetTypes::begins_same, crate::specs::facts::MetTypes::begins_then))]
fn check_required(
    alloc: Global,
    addition: &AdditionRef<'_>,
    new_ids: &NewIds,
    met: &mut Table<TypeId, bool>,
    id: TypeId,
    span: Span,
) -> ResolveResult<()>
    requires shaped { IsShaped addition.now.unresolved.now }
    requires valid { IsValid addition.now.graph.now }
    requires new_ids { new_ids.now ≡ new_ids_of (addition_of addition.now) }
    requires met { AreRight addition.now.graph.now.types met.old }
    requires required { Contains addition.now.unresolved.now.required_resource_types (id, span) }
    ensures ok { OnOk result (LeadsWhereFound (addition_of addition.now) id) }
    ensures cause { IfErr result
        (λ kind. (kind ≡ OutOfMemory) ⊎ IsAdditionCause (addition_of addition.now) kind) }
    ensures met { AreRight addition.now.graph.now.types met.new }
    ensures begins { take (length met.old) met.new ≡ met.old }
{
    let Some(found) = *new_ids.types.at(id.index()) else {
        return Ok(());
    };
    let leads = leads_to_resource(addition.graph.types.as_slice(), met, found)?;
    if leads {
        return Ok(());
    }
    Err(not_a_resource(alloc, span, addition.offset)?)
}
