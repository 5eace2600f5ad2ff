//! What the types of a package that is added are remapped to at value positions.
ghost use Rattle.std.specs.Prelude.{◌≡◌, IfOk, length, take};
ghost use Rattle.wit_data.specs.Shape.{IsShaped};
ghost use Rattle.wit_elaboration.specs.Valid.{IsValid};
ghost use Rattle.wit_link_spec.specs.steps.AdditionRefs.{activity_of, addition_of, new_ids_of, values_of};
ghost use Rattle.wit_link_spec.specs.Reasons.{IsResolved};
ghost use Rattle.wit_link_resources.specs.steps.Leading.{AreRight};

use crate::functions::active_functions;
use crate::incoming::Incoming;
use crate::owning::remapped_values;
use std::alloc::{AllocError, Global};
use wit_data::TypeId;
use wit_link_spec::{Activity, AdditionRef, NewIds, Values};
use wit_values::Table;

/// What types are remapped to at value positions, and the `own`s that come for that. The package has its shape, the
/// graph is valid, what is active of the package and what it is remapped to is told by `activity` of wit_link_lookup
/// and `new_ids_of` of wit_link_lookup, and none of 1 to 3 and 9 to 13 holds against the addition. The only error is
/// want of memory.
///
/// It takes a step for each part of the package, and for each alias of the graph on the way from the types of other
/// packages that values ask for, themselves or through aliases of the package, up to one that was met; what is met on
/// the way is noted behind that.
///
/// Source: `update_ty` of wit-parser 0.263.0.
pub fn values(
    alloc: Global,
    addition: &AdditionRef<'_>,
    activity: &Activity,
    new_ids: &NewIds,
    met: &mut Table<TypeId, bool>,
) -> Result<Values, AllocError>
    requires shaped { IsShaped addition.now.unresolved.now }
    requires valid { IsValid addition.now.graph.now }
    requires activity { activity.now ≡ activity_of (addition_of addition.now) }
    requires new_ids { new_ids.now ≡ new_ids_of (addition_of addition.now) }
    requires image { IsResolved (addition_of addition.now) }
    requires met { AreRight addition.now.graph.now.types met.old }
    ensures values { IfOk result (λ values. values ≡ values_of (addition_of addition.now)) }
    ensures met { AreRight addition.now.graph.now.types met.new }
    ensures begins { take (length met.old) met.new ≡ met.old }
{
    let functions = active_functions(alloc, addition, activity)?;
    let incoming = Incoming {
        graph_types: &addition.graph.types,
        types: &addition.unresolved.types,
        ids: &new_ids.types,
    };
    remapped_values(alloc, &incoming, functions.as_slice(), met)
}
