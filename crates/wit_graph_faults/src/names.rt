//! What packages are called.
ghost use Rattle.std.specs.Prelude.{IfOk};
ghost use Rattle.wit_graph_data.specs.declared.graph.Package.{Package};
ghost use Rattle.wit_graph_faults.specs.declared.place.GraphPlace.TheVariants as place;
ghost use Rattle.wit_names.specs.PackageName.{HasValidVersion};
ghost use Rattle.wit_names.specs.UsePath.{IsKebabName};
ghost use Rattle.wit_shape.specs.First.{FindsFirst};

use crate::place::GraphPlace;
use std::alloc::{AllocError, Global};
use wit_data::{PackageId, is_kebab_name};
use wit_graph_data::Package;

/// The first package with a namespace that is no kebab name.
pub(crate) fn namespaces(packages: &[Package]) -> Option<GraphPlace>
    ensures { FindsFirst place.Package (λ _ (home : Package). IsKebabName home.name.namespace)
        packages.now result }
{
    let index = packages
        .iter()
        .position(|home| !is_kebab_name(home.name.namespace.as_str()))?;
    Some(GraphPlace::Package(PackageId::from_index(index)))
}

/// The first package with a name that is no kebab name.
pub(crate) fn packages(packages: &[Package]) -> Option<GraphPlace>
    ensures { FindsFirst place.Package (λ _ (home : Package). IsKebabName home.name.name)
        packages.now result }
{
    let index = packages
        .iter()
        .position(|home| !is_kebab_name(home.name.name.as_str()))?;
    Some(GraphPlace::Package(PackageId::from_index(index)))
}

/// The first package with a version that isn't one of SemVer.
pub(crate) fn versions(
    alloc: Global,
    packages: &[Package],
) -> Result<Option<GraphPlace>, AllocError>
    ensures { IfOk result (λ found.
        FindsFirst place.Package (λ _ (home : Package). HasValidVersion home.name) packages.now
        found) }
{
    for (index, home) in packages.iter().enumerate() {
        if !home.name.has_valid_version(alloc)? {
            return Ok(Some(GraphPlace::Package(PackageId::from_index(index))));
        }
    }
    Ok(None)
}
