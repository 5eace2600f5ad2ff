//! Which unresolved packages depend on which.
ghost use Rattle.std.specs.Prelude.{◌≡◌, ◌++◌, IfOk, OnOk};
ghost use Rattle.std.specs.Option.{option_to_list};
ghost use Rattle.wit_link.specs.GroupOrder.{group_uses, names_of};
ghost use Rattle.wit_link.specs.steps.GroupOrderSteps.{found_deps, indices_of_names};

use std::alloc::{AllocError, Global};
use wit_data::{Items, PackageName, Table, UnresolvedPackage};

/// For each unresolved package those that it depends on.
pub(crate) fn uses_of_group(
    alloc: Global,
    unresolved: &Items<(UnresolvedPackage, u32)>,
    places: &Table<PackageName, usize>,
) -> Result<Items<Items<usize>>, AllocError>
    requires { places.now ≡ indices_of_names (names_of unresolved.now) }
    ensures { IfOk result (λ uses. uses ≡ group_uses unresolved.now) }
{
    let mut uses = Items::new(alloc);
    for entry in unresolved.as_slice() {
        uses.push(deps_of(alloc, &entry.0, places)?)?;
    }
    Ok(uses)
}

/// Those that a package depends on.
fn deps_of(
    alloc: Global,
    package: &UnresolvedPackage,
    places: &Table<PackageName, usize>,
) -> Result<Items<usize>, AllocError>
    ensures { IfOk result (λ deps. deps ≡ found_deps places.now «package».now) }
{
    let mut deps = Items::new(alloc);
    for (name, _) in package.foreign_deps.iter() {
        push_found(&mut deps, places.get(name).copied())?;
    }
    Ok(deps)
}

/// Adds an index where there is one.
fn push_found(deps: &mut Items<usize>, found: Option<usize>) -> Result<(), AllocError>
    ensures { OnOk result (deps.new ≡ deps.old ++ option_to_list found) }
{
    match found {
        Some(place) => deps.push(place),
        None => Ok(()),
    }
}
