//! The interfaces of a world that stand under labels.
ghost use Rattle.std.specs.Prelude.{◌≡◌, IfOk, filter};
ghost use Rattle.wit_digraph.specs.PostOrder.{first_of_each};
ghost use Rattle.witgraph_dot.specs.Sets.{is_one_of};
ghost use Rattle.witgraph_dot.specs.Labels.{labelled_interface};
ghost use Rattle.witgraph_dot.specs.steps.Parts.{labelled_interfaces};

use crate::sets::is_one_of;
use std::alloc::{AllocError, Global};
use wit_resolve_graph::{InterfaceId, Table, WorldItem, WorldKey};

/// The interface of an entry under a label.
fn labelled_interface(key: &WorldKey, item: &WorldItem) -> Option<InterfaceId>
    ensures { result ≡ labelled_interface (key.now, item.now) }
{
    match (key, item) {
        (WorldKey::Name(_), WorldItem::Interface { id, .. }) => Some(*id),
        _ => None,
    }
}

/// The interfaces that entries have under labels and that are shown, each once. The only error is want of memory.
pub fn labelled_interfaces(
    alloc: Global,
    entries: &Table<WorldKey, WorldItem>,
    shown: &[InterfaceId],
) -> Result<Vec<InterfaceId>, AllocError>
    ensures { IfOk result (λ found.
        found.items
        ≡ first_of_each (filter (is_one_of shown.now) (labelled_interfaces entries.now))) }
{
    let mut found = Vec::new(alloc);
    for (key, item) in entries.iter() {
        if let Some(id) = labelled_interface(key, item) {
            if is_one_of(shown, id) && !is_one_of(&found, id) {
                found.push(id)?;
            }
        }
    }
    Ok(found)
}
