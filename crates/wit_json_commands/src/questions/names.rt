//! What stands under names.
ghost use Rattle.std.specs.Prelude.{◌≡◌};
ghost use Rattle.wit_graph_data.specs.Named.{world_named};
ghost use Rattle.wit_json_commands.specs.Tells.{interface_id_named};

use wit_data::{InterfaceId, PackageName, WorldId};
use wit_graph_data::Graph;

/// The interface of a name in the package of a name.
pub fn interface_named(graph: &Graph, package: &PackageName, name: &str) -> Option<InterfaceId>
    ensures { result ≡ interface_id_named graph.now «package».now name.now }
{
    let id = graph.package_names.get(package)?;
    graph.interface_in(*id, name)
}

/// The world of a name in the package of a name.
pub fn world_named(graph: &Graph, package: &PackageName, name: &str) -> Option<WorldId>
    ensures { result ≡ world_named graph.now «package».now name.now }
{
    let id = graph.package_names.get(package)?;
    graph.world_in(*id, name)
}
