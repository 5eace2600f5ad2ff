//! The next of what the entries of a table name.
ghost use Rattle.std.specs.Prelude.{◌≡◌, ◌∷◌, ℕ, List, [], MatchOption, filter_map};
ghost use Rattle.wit_graph_data.specs.Queries.{entry_interface, other_package, entry_interfaces};
ghost use Rattle.wit_data.specs.Uses.{type_interface_dep};
ghost use Rattle.wit_queries.specs.RemainingUses.{remaining_interfaces, remaining_uses};

use crate::interface_deps::InterfaceDirectDeps;
use crate::world_deps::WorldInterfaces;
use wit_data::{
    Interface, InterfaceId, PackageId, TypeDef, TypeId, WorldId, WorldItem, WorldKey,
    type_interface_dep,
};
use wit_graph_data::Graph;
use wit_values::{NamesIter, TableIter};

/// The next interface that the types of a table need.
pub(crate) fn next_used(types: &[TypeDef], ids: &mut NamesIter<'_, TypeId>) -> Option<InterfaceId>
    ensures { MatchOption result
        ((filter_map (λ (e : List ℕ × ℕ). type_interface_dep types.now e.1) ids.old ≡ [])
        × (ids.new ≡ []))
        (λ i. filter_map (λ (e : List ℕ × ℕ). type_interface_dep types.now e.1) ids.old ≡ i
        ∷ filter_map (λ (e : List ℕ × ℕ). type_interface_dep types.now e.1) ids.new) }
{
    while let Some((_, id)) = ids.next() {
        if let Some(used) = type_interface_dep(types, *id) {
            return Some(used);
        }
    }
    None
}

/// The interface that an entry of a world names.
fn entry_interface(types: &[TypeDef], item: &WorldItem) -> Option<InterfaceId>
    ensures { result ≡ entry_interface types.now item.now }
{
    match item {
        WorldItem::Interface { id, .. } => Some(*id),
        WorldItem::Function(_) => None,
        WorldItem::Type_ { id, .. } => type_interface_dep(types, *id),
    }
}

/// The next interface that entries name.
pub(crate) fn next_named(
    types: &[TypeDef],
    entries: &mut TableIter<'_, WorldKey, WorldItem>,
) -> Option<InterfaceId>
    ensures { MatchOption result
        ((entry_interfaces types.now entries.old ≡ []) × (entries.new ≡ []))
        (λ i. entry_interfaces types.now entries.old ≡ i ∷ entry_interfaces types.now entries.new) }
{
    while let Some((_, item)) = entries.next() {
        if let Some(named) = entry_interface(types, item) {
            return Some(named);
        }
    }
    None
}

/// The next interface that the interfaces of a table use: of the one that is begun, else of those
/// after it.
pub(crate) fn next_use<'a>(
    graph: &'a Graph,
    begun: &mut Option<InterfaceDirectDeps<'a>>,
    rest: &mut NamesIter<'a, InterfaceId>,
) -> Option<InterfaceId>
    ensures { MatchOption result
        ((remaining_uses graph.now.types graph.now.interfaces begun.old rest.old ≡ [])
        × (remaining_uses graph.now.types graph.now.interfaces begun.new rest.new ≡ []))
        (λ i. remaining_uses graph.now.types graph.now.interfaces begun.old rest.old ≡ i
        ∷ remaining_uses graph.now.types graph.now.interfaces begun.new rest.new) }
{
    loop {
        if let Some(uses) = begun
            && let Some(used) = uses.next()
        {
            return Some(used);
        }
        let (_, id) = rest.next()?;
        *begun = InterfaceDirectDeps::of(graph, *id);
    }
}

/// The next interface that the worlds of a table name: of the one that is begun, else of those after
/// it.
pub(crate) fn next_world_interface<'a>(
    graph: &'a Graph,
    begun: &mut Option<WorldInterfaces<'a>>,
    rest: &mut NamesIter<'a, WorldId>,
) -> Option<InterfaceId>
    ensures { MatchOption result
        ((remaining_interfaces graph.now.types graph.now.worlds begun.old rest.old ≡ [])
        × (remaining_interfaces graph.now.types graph.now.worlds begun.new rest.new ≡ []))
        (λ i. remaining_interfaces graph.now.types graph.now.worlds begun.old rest.old ≡ i
        ∷ remaining_interfaces graph.now.types graph.now.worlds begun.new rest.new) }
{
    loop {
        if let Some(named) = begun
            && let Some(interface) = named.next()
        {
            return Some(interface);
        }
        let (_, id) = rest.next()?;
        *begun = WorldInterfaces::of(graph, *id);
    }
}

/// The package of an interface, where it is another than this one.
pub(crate) fn other_package(
    interfaces: &[Interface],
    package: PackageId,
    interface: InterfaceId,
) -> Option<PackageId>
    ensures { result ≡ other_package interfaces.now «package» interface }
{
    let home = interfaces.get(interface.index())?.package?;
    if home == package { None } else { Some(home) }
}
