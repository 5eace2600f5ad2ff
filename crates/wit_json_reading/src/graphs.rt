//! Graphs.
ghost use Rattle.std.specs.Prelude.{[]};
ghost use Rattle.wit_json_reading.specs.Graphs.{read_graph, read_graph_package, homes_from, with_home};
ghost use Rattle.wit_json_reading.specs.Reading.{Reads};

use crate::fault::{Expected, ReadError, in_item, in_member, instead_of};
use crate::gates::docs;
use crate::lists::required_without;
use crate::reader::{ReadJson, only, required};
use json::Value;
use std::alloc::Global;
use wit_data::{Items, PackageId, PackageName, Table};
use wit_graph_data::{Graph, Package};
use wit_values::TryClone;

impl ReadJson for Package {
    ghost reading = { read_graph_package };

    #[tactic(auto, unfolding(crate::specs::Graphs::read_graph_package))]
    fn read_json(alloc: Global, value: &Value<'_>) -> Result<Package, ReadError> {
        only(alloc, value, &["name", "docs", "interfaces", "worlds"])?;
        let name = required(alloc, value, "name")?;
        let docs = docs(alloc, value)?;
        let interfaces = required(alloc, value, "interfaces")?;
        let worlds = required(alloc, value, "worlds")?;
        Ok(Package {
            name,
            docs,
            interfaces,
            worlds,
        })
    }
}

/// The ids of packages by their names.
type PackageIds = Table<PackageName, PackageId>;

/// Each package under its name, in order.
fn homes(alloc: Global, packages: &Items<Package>) -> Result<PackageIds, ReadError>
    ensures { Reads result (homes_from [] packages.now) }
{
    let mut names = Table::new(alloc);
    for home in packages.as_slice() {
        names = with_home(alloc, home, names)?;
    }
    Ok(names)
}

/// One package more under its name, which no package before it has.
fn with_home(alloc: Global, home: &Package, mut names: PackageIds) -> Result<PackageIds, ReadError>
    ensures { Reads result (with_home home.now names) }
{
    let index = names.len();
    if names.contains_key(&home.name) {
        let name = in_member(alloc, instead_of(alloc, Expected::NewName), "name");
        return in_item(name, index);
    }
    names.push(home.name.try_clone()?, PackageId::from_index(index))?;
    Ok(names)
}

impl ReadJson for Graph {
    ghost reading = { read_graph };

    #[tactic(auto, unfolding(crate::specs::Graphs::read_graph))]
    fn read_json(alloc: Global, value: &Value<'_>) -> Result<Graph, ReadError> {
        only(alloc, value, &["worlds", "interfaces", "types", "packages"])?;
        let worlds = required_without(alloc, value, "worlds", "includes")?;
        let interfaces = required(alloc, value, "interfaces")?;
        let types = required(alloc, value, "types")?;
        let packages = required(alloc, value, "packages")?;
        let package_names = in_member(alloc, homes(alloc, &packages), "packages")?;
        Ok(Graph {
            types,
            interfaces,
            worlds,
            packages,
            package_names,
        })
    }
}
