//! What the values of types hold.
ghost use Rattle.std.specs.Prelude.{◌≡◌, IfOk};
ghost use Rattle.wit_graph_data.specs.Queries.{type_contents};
ghost use Rattle.wit_graph_data.specs.steps.Parts.{content_types};

use std::alloc::{AllocError, Global};
use wit_data::{PartRole, TypeDef, TypeDefKind, part_role, places, referred};
use wit_values::Items;

/// What the values of a kind hold, as ids.
fn content_types(alloc: Global, kind: &TypeDefKind) -> Result<Items<usize>, AllocError>
    ensures { IfOk result (λ held. held ≡ content_types kind.now) }
{
    match part_role(kind) {
        PartRole::Argument => Ok(Items::new(alloc)),
        _ => places(alloc, referred(alloc, kind)?.as_slice()),
    }
}

/// What the values of which type hold, as adjacency lists: list i has what those of type i hold, both from 0.
/// The only error is want of memory.
pub fn type_contents(alloc: Global, types: &[TypeDef]) -> Result<Items<Items<usize>>, AllocError>
    ensures { IfOk result (λ rows. rows ≡ type_contents types.now) }
{
    let mut rows = Items::new(alloc);
    for def in types {
        rows.push(content_types(alloc, &def.kind)?)?;
    }
    Ok(rows)
}
