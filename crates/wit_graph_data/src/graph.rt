//! The graph as plain data.
ghost use Rattle.std.specs.Prelude.{◌≡◌, []};
ghost use Rattle.wit_graph_data.specs.Named.{interface_in, world_in};

use std::alloc::{AllocError, Global};
use wit_data::{
    Docs, Interface, InterfaceId, Items, Names, PackageId, PackageName, Table, TryClone, TypeDef,
    World, WorldId,
};
use wit_values::{try_clone_four, try_clone_three, try_clone_two};

/// A package: its interfaces and worlds by name.
///
/// Source: `Package` of wit-parser 0.263.0.
#[derive(Debug)]
pub struct Package {
    pub name: PackageName,
    pub docs: Docs,
    pub interfaces: Names<InterfaceId>,
    pub worlds: Names<WorldId>,
}

/// As the derived one: each field is let go. A call of it costs the check less than a derived one,
/// which is checked again wherever a value is let go.
impl Drop for Package {
    fn drop(self) {
        let Package {
            name,
            docs,
            interfaces,
            worlds,
        } = self;
        drop(name);
        drop(docs);
        drop(interfaces);
        drop(worlds);
    }
}

impl TryClone for Package {
    fn try_clone(&self) -> Result<Package, AllocError> {
        let (name, docs, interfaces, worlds) = try_clone_four(
            &self.name,
            &self.docs,
            &self.interfaces,
            &self.worlds,
        )?;
        Ok(Package {
            name,
            docs,
            interfaces,
            worlds,
        })
    }
}

/// Packages with their interfaces, types and worlds, each named by its index in its list.
pub struct Graph {
    pub types: Items<TypeDef>,
    pub interfaces: Items<Interface>,
    pub worlds: Items<World>,
    pub packages: Items<Package>,
    /// Each package under its own name.
    pub package_names: Table<PackageName, PackageId>,
}

impl Graph {
    /// The empty graph, which takes no memory.
    pub fn new(alloc: Global) -> Graph
        ensures types { result.types ≡ [] }
        ensures interfaces { result.interfaces ≡ [] }
        ensures worlds { result.worlds ≡ [] }
        ensures packages { result.packages ≡ [] }
        ensures names { result.package_names ≡ [] }
    {
        Graph {
            types: Items::new(alloc),
            interfaces: Items::new(alloc),
            worlds: Items::new(alloc),
            packages: Items::new(alloc),
            package_names: Table::new(alloc),
        }
    }

    /// The interface of a name in a package; None where either isn't there. It takes no memory.
    ///
    /// Source: `Package::interfaces` of wit-parser 0.263.0.
    pub fn interface_in(&self, id: PackageId, name: &str) -> Option<InterfaceId>
        ensures { result ≡ interface_in self.now name.now id }
    {
        let home = self.packages.get(id.index())?;
        home.interfaces.get(name).copied()
    }

    /// The world of a name in a package; None where either isn't there. It takes no memory.
    ///
    /// Source: `Package::worlds` of wit-parser 0.263.0.
    pub fn world_in(&self, id: PackageId, name: &str) -> Option<WorldId>
        ensures { result ≡ world_in self.now name.now id }
    {
        let home = self.packages.get(id.index())?;
        home.worlds.get(name).copied()
    }
}

/// As the derived one: each field is let go. A call of it costs the check less than a derived one,
/// which is checked again wherever a value is let go.
impl Drop for Graph {
    fn drop(self) {
        let Graph {
            types,
            interfaces,
            worlds,
            packages,
            package_names,
        } = self;
        drop(types);
        drop(interfaces);
        drop(worlds);
        drop(packages);
        drop(package_names);
    }
}

impl TryClone for Graph {
    fn try_clone(&self) -> Result<Graph, AllocError> {
        let (types, interfaces) = try_clone_two(&self.types, &self.interfaces)?;
        let (worlds, packages, package_names) = try_clone_three(
            &self.worlds,
            &self.packages,
            &self.package_names,
        )?;
        Ok(Graph {
            types,
            interfaces,
            worlds,
            packages,
            package_names,
        })
    }
}
