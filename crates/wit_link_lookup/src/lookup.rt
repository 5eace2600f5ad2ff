//! What the things of a package are remapped to that is added to a graph.
ghost use Rattle.std.specs.Prelude.{◌≡◌, ◌⊎◌, IfErr, IfOk, OnOk};
ghost use Rattle.wit_graph_data.specs.declared.error_kind.ResolveErrorKind.TheVariants.{OutOfMemory};
ghost use Rattle.wit_data.specs.Shape.{IsShaped};
ghost use Rattle.wit_link_spec.specs.steps.AdditionRefs.{activity_of, addition_of, new_ids_of};
ghost use Rattle.wit_link_spec.specs.Cause.{IsAdditionCause};
ghost use Rattle.wit_link_spec.specs.steps.Passed.{IsAllFound};

use crate::foreign::find_foreign;
use crate::new_ids::assign_ids;
use crate::types::type_ids;
use std::alloc::Global;
use wit_graph_data::ResolveResult;
use wit_link_spec::{Activity, AdditionRef, NewIds};

/// What the things of a package are remapped to: what is named of other packages to what the graph has under that name, its own to
/// the next ids. The package has its shape, and what is active of it is told by `activity` of wit_link_lookup.
///
/// Refused where a package of which something is named isn't there (1), or, of what is active, a world (2), an
/// interface (3) or a type (13) of another package; the one that is added counts as there, and empty. Else it is
/// refused for want of memory (28) alone. That is told too where a span that would be told ends past 4294967295, so
/// the caller looks at the spans first.
///
/// Source: `process_foreign_deps` of wit-parser 0.263.0.
pub fn new_ids_of(
    alloc: Global,
    addition: &AdditionRef<'_>,
    activity: &Activity,
) -> ResolveResult<NewIds>
    requires shaped { IsShaped addition.now.unresolved.now }
    requires activity { activity.now ≡ activity_of (addition_of addition.now) }
    ensures new_ids { IfOk result (λ new_ids. new_ids ≡ new_ids_of (addition_of addition.now)) }
    ensures found { OnOk result (IsAllFound (addition_of addition.now)) }
    ensures cause { IfErr result
        (λ kind. (kind ≡ OutOfMemory) ⊎ IsAdditionCause (addition_of addition.now) kind) }
{
    let found = find_foreign(alloc, addition, activity)?;
    let types = type_ids(alloc, addition, activity, &found)?;
    let interfaces = assign_ids(
        alloc,
        &activity.interfaces,
        &found.interfaces,
        addition.graph.interfaces.len(),
    )?;
    let worlds = assign_ids(
        alloc,
        &activity.worlds,
        &found.worlds,
        addition.graph.worlds.len(),
    )?;
    Ok(NewIds {
        types,
        interfaces,
        worlds,
    })
}
