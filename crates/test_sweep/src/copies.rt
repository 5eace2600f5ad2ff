//! Copies of the parts of a graph and of a group.
use crate::marks::copied;
use wit_graph::{Graph, Package};
use wit_items::{
    Function, Interface, TryClone, TypeDef, TypeDefKind, UnresolvedPackage, UnresolvedPackageGroup,
    World, WorldInclude,
};

pub fn copy_graph(rt: &impl Print, graph: &Graph) -> Option<()> {
    copied(rt, "try_clone of Graph", graph)?;
    copied(rt, "try_clone of Table", &graph.package_names)?;
    copied(rt, "try_clone of Items", &graph.types)?;
    for package in graph.packages.iter() {
        copy_package(rt, package)?;
    }
    for def in graph.types.iter() {
        copy_type(rt, def)?;
    }
    for interface in graph.interfaces.iter() {
        copy_interface(rt, interface)?;
    }
    for world in graph.worlds.iter() {
        copy_world(rt, world)?;
    }
    Some(())
}

fn copy_package(rt: &impl Print, package: &Package) -> Option<()> {
    copied(rt, "try_clone of Package", package)?;
    copied(rt, "try_clone of PackageName", &package.name)?;
    copied(rt, "try_clone of Text", &package.name.name)
}

fn copy_type(rt: &impl Print, def: &TypeDef) -> Option<()> {
    copied(rt, "try_clone of TypeDef", def)?;
    copied(rt, "try_clone of TypeDefKind", &def.kind)?;
    if let TypeDefKind::Record { fields } = &def.kind {
        for field in fields.iter() {
            copied(rt, "try_clone of Field", field)?;
        }
    }
    Some(())
}

fn copy_interface(rt: &impl Print, interface: &Interface) -> Option<()> {
    copied(rt, "try_clone of Interface", interface)?;
    copied(rt, "try_clone of Names", &interface.types)?;
    for (_, function) in interface.functions.iter() {
        copy_function(rt, function)?;
    }
    Some(())
}

fn copy_function(rt: &impl Print, function: &Function) -> Option<()> {
    copied(rt, "try_clone of Function", function)?;
    for param in function.params.iter() {
        copied(rt, "try_clone of Param", param)?;
    }
    Some(())
}

fn copy_world(rt: &impl Print, world: &World) -> Option<()> {
    copied(rt, "try_clone of World", world)?;
    for (key, item) in world.imports.iter() {
        copied(rt, "try_clone of WorldKey", key)?;
        copied(rt, "try_clone of WorldItem", item)?;
    }
    Some(())
}

pub fn copy_group(rt: &impl Print, group: &UnresolvedPackageGroup) -> Option<()> {
    copied(rt, "try_clone of UnresolvedPackageGroup", group)?;
    copied(rt, "try_clone of SourceMap", &group.source_map)?;
    copy_unresolved(rt, &group.main)
}

fn copy_unresolved(rt: &impl Print, package: &UnresolvedPackage) -> Option<()> {
    copied(rt, "try_clone of UnresolvedPackage", package)?;
    for world in package.worlds.iter() {
        for include in world.includes.iter() {
            copy_include(rt, include)?;
        }
    }
    Some(())
}

fn copy_include(rt: &impl Print, include: &WorldInclude) -> Option<()> {
    copied(rt, "try_clone of WorldInclude", include)?;
    for name in include.names.iter() {
        copied(rt, "try_clone of IncludeName", name)?;
    }
    Some(())
}
