//! Types that aren't known, or refer to what isn't there.
ghost use Rattle.std.specs.Prelude.{◌≢◌, IfOk};
ghost use Rattle.wit_data.specs.declared.types.TypeDef.{TypeDef};
ghost use Rattle.wit_data.specs.declared.types.TypeDefKind.TheVariants as kind;
ghost use Rattle.wit_graph_faults.specs.Faults.{RefersToThere};
ghost use Rattle.wit_graph_faults.specs.declared.place.GraphPlace.TheVariants as place;
ghost use Rattle.wit_shape.specs.First.{FindsFirst};

use crate::place::GraphPlace;
use std::alloc::{AllocError, Global};
use wit_data::{TypeDef, TypeId};
use wit_shape::references::refers_back;
use wit_shape::unknown::is_unknown;

/// The first type of an unknown kind.
pub(crate) fn known(types: &[TypeDef]) -> Option<GraphPlace>
    ensures { FindsFirst place.Type_ (λ _ (def : TypeDef). def.kind ≢ kind.Unknown) types.now
        result }
{
    let index = types.iter().position(|def| is_unknown(def))?;
    Some(GraphPlace::Type_(TypeId::from_index(index)))
}

/// The first type that refers to one that isn't there.
pub(crate) fn there(alloc: Global, types: &[TypeDef]) -> Result<Option<GraphPlace>, AllocError>
    ensures { IfOk result
        (λ found. FindsFirst place.Type_ (λ _. RefersToThere types.now) types.now found) }
{
    for (index, def) in types.iter().enumerate() {
        if !refers_back(alloc, types.len(), def)? {
            return Ok(Some(GraphPlace::Type_(TypeId::from_index(index))));
        }
    }
    Ok(None)
}
