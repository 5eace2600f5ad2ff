//! What is asked of the entries of a world.
ghost use Rattle.std.specs.Prelude.{◌≡◌, IfErr, IfOk, string_bytes};
ghost use Rattle.std.specs.Option.{option_map};
ghost use Rattle.wit_graph_data.specs.Queries.{external_id_value, implements_interface, named_interface};
ghost use Rattle.wit_graph_data.specs.declared.error_kind.ResolveErrorKind.TheVariants.{OutOfMemory};

use std::alloc::Global;
use wit_data::{InterfaceId, Text, WorldItem, WorldKey};
use wit_graph_data::{Graph, ResolveResult};

/// The interface with a name that stands under a label, None of any other entry.
///
/// Source: `implements_interface` of wit-parser 0.263.0.
pub fn implements_interface(graph: &Graph, key: &WorldKey, item: &WorldItem) -> Option<InterfaceId>
    ensures { result ≡ implements_interface graph.now.interfaces key.now item.now }
{
    match (key, item) {
        (WorldKey::Name(_), WorldItem::Interface { id, .. }) => named_interface(graph, *id),
        _ => None,
    }
}

/// An interface, None where it has no name or isn't there.
pub fn named_interface(graph: &Graph, id: InterfaceId) -> Option<InterfaceId>
    ensures { result ≡ named_interface graph.now.interfaces id }
{
    match &graph.interfaces.get(id.index())?.name {
        Some(_) => Some(id),
        None => None,
    }
}

/// The external id of an entry, to look at: its own, or that of its function or type. None where
/// there is none.
pub fn external_id_of<'a>(graph: &'a Graph, item: &'a WorldItem) -> Option<&'a Text>
    ensures { option_map (λ id. id.now) result ≡ external_id_value graph.now.types item.now }
{
    match item {
        WorldItem::Interface { external_id, .. } => external_id.as_ref(),
        WorldItem::Function(function) => function.external_id.as_ref(),
        WorldItem::Type_ { id, .. } => graph.types.get(id.index())?.external_id.as_ref(),
    }
}

/// The external id of an entry: its own, or that of its function or type. None where there is none.
/// The only refusal is want of memory (28).
///
/// Source: `external_id_value` of wit-parser 0.263.0.
pub fn external_id_value(
    alloc: Global,
    graph: &Graph,
    item: &WorldItem,
) -> ResolveResult<Option<String>>
    ensures text { IfOk result
        (λ text. option_map string_bytes text ≡ external_id_value graph.now.types item.now) }
    ensures memory { IfErr result (λ e. e ≡ OutOfMemory) }
{
    match external_id_of(graph, item) {
        Some(id) => Ok(Some(String::from_str(alloc, id.as_str())?)),
        None => Ok(None),
    }
}
