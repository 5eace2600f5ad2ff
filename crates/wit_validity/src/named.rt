//! Whether packages and what stands in them are named as they should be.
ghost use Rattle.std.specs.Prelude.{◌↔◌, IfOk, IsTrue};
ghost use Rattle.wit_elaboration.specs.Valid.{HasValidNames};
ghost use Rattle.wit_graph_data.specs.declared.graph.Package.{Package};
ghost use Rattle.wit_data.specs.Each.{Each};
ghost use Rattle.wit_names.specs.PackageName.{HasValidVersion};
ghost use Rattle.wit_names.specs.UsePath.{IsKebabName};
ghost use Rattle.wit_validity.specs.steps.Parts.{HasNamesInTables};

use crate::package_names::has_package_names;
use crate::tables::has_tables;
use std::alloc::{AllocError, Global};
use wit_data::{Interface, is_kebab_name};
use wit_graph_data::{Graph, Package};
use wit_shape::names::are_interfaces_kebab;

/// Whether each thing stands under its name where it should, and names and versions are valid. The only error is want
/// of memory.
pub(crate) fn is_named(alloc: Global, graph: &Graph) -> Result<bool, AllocError>
    ensures { IfOk result (λ named. IsTrue named ↔ HasNamesInTables graph.now) }
{
    let packages = graph.packages.as_slice();
    let interfaces = graph.interfaces.as_slice();
    if !has_package_names(packages, &graph.package_names) {
        return Ok(false);
    }
    if !has_tables(packages, interfaces, graph.worlds.as_slice()) {
        return Ok(false);
    }
    has_valid_names(alloc, packages, interfaces)
}

/// Whether namespaces and the names of packages and interfaces are kebab names, and versions those of SemVer.
fn has_valid_names(
    alloc: Global,
    packages: &[Package],
    interfaces: &[Interface],
) -> Result<bool, AllocError>
    ensures { IfOk result (λ valid. IsTrue valid ↔ HasValidNames packages.now interfaces.now) }
{
    if !are_namespaces_kebab(packages) {
        return Ok(false);
    }
    if !are_packages_kebab(packages) {
        return Ok(false);
    }
    if !are_interfaces_kebab(interfaces) {
        return Ok(false);
    }
    have_valid_versions(alloc, packages)
}

fn have_valid_versions(alloc: Global, packages: &[Package]) -> Result<bool, AllocError>
    ensures { IfOk result (λ valid.
        IsTrue valid ↔ Each (λ (home : Package). HasValidVersion home.name) packages.now) }
{
    for home in packages {
        if !home.name.has_valid_version(alloc)? {
            return Ok(false);
        }
    }
    Ok(true)
}

fn are_namespaces_kebab(packages: &[Package]) -> bool
    ensures { IsTrue result
        ↔ Each (λ (home : Package). IsKebabName home.name.namespace) packages.now }
{
    packages
        .iter()
        .all(|home| is_kebab_name(home.name.namespace.as_str()))
}

fn are_packages_kebab(packages: &[Package]) -> bool
    ensures { IsTrue result ↔ Each (λ (home : Package). IsKebabName home.name.name) packages.now }
{
    packages
        .iter()
        .all(|home| is_kebab_name(home.name.name.as_str()))
}
