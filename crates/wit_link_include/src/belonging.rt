//! The interfaces without a name that go with a world.
ghost use Rattle.std.specs.Prelude.{◌≡◌, ℕ, ◌++◌, IfOk, OnOk, filter, nat_eq};
ghost use Rattle.std.specs.List.{list_any};
ghost use Rattle.std.specs.List.Sorted.{IsStrictlySortedBy};
ghost use Rattle.std.specs.Ordering.{nat_cmp};
ghost use Rattle.wit_data.specs.Entries.{interfaces_of_entries, is_unnamed, item_interface};
ghost use Rattle.wit_link_spec.specs.Include.{belongs_to};

use crate::numbering::in_order;
use std::alloc::{AllocError, Global};
use wit_data::{InterfaceId, Items, Table, World, WorldItem, WorldKey, is_unnamed};
use wit_graph_data::Graph;

/// The interfaces without a name that stand in a world, in the order of their ids.
pub(crate) fn belonging_interfaces(
    alloc: Global,
    graph: &Graph,
    world: &World,
) -> Result<Items<InterfaceId>, AllocError>
    ensures rising { IfOk result (λ ids. IsStrictlySortedBy nat_cmp ids) }
    ensures members { IfOk result
        (λ ids. (i : ℕ) → list_any (nat_eq i) ids ≡ belongs_to graph.now world.now i) }
{
    let mut ids = Items::new(alloc);
    push_unnamed(&mut ids, graph, &world.imports)?;
    push_unnamed(&mut ids, graph, &world.exports)?;
    in_order(ids)
}

/// Adds the interfaces without a name that entries hold.
fn push_unnamed(
    ids: &mut Items<InterfaceId>,
    graph: &Graph,
    entries: &Table<WorldKey, WorldItem>,
) -> Result<(), AllocError>
    ensures { OnOk result (ids.new
        ≡ ids.old
        ++ filter (is_unnamed graph.now.interfaces) (interfaces_of_entries entries.now)) }
{
    for (_, item) in entries.iter() {
        push_if_unnamed(ids, graph, item)?;
    }
    Ok(())
}

/// Adds the interface that an item is where it has no name.
fn push_if_unnamed(
    ids: &mut Items<InterfaceId>,
    graph: &Graph,
    item: &WorldItem,
) -> Result<(), AllocError>
    ensures { OnOk result (ids.new
        ≡ ids.old ++ filter (is_unnamed graph.now.interfaces) (item_interface item.now)) }
{
    if let WorldItem::Interface { id, .. } = item {
        if is_unnamed(graph.interfaces.as_slice(), *id) {
            ids.push(*id)?;
        }
    }
    Ok(())
}
