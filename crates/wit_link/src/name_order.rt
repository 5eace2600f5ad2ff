//! Packages by their names.
ghost use Rattle.std.specs.Prelude.{◌≡◌, ◌⊎◌, IfErr, IfOk};
ghost use Rattle.std.specs.Map.{values_of};
ghost use Rattle.wit_graph_data.specs.declared.error_kind.ResolveErrorKind.TheVariants.{OutOfMemory};
ghost use Rattle.wit_link.specs.GroupOrder.{IsSortCause, names_of};
ghost use Rattle.wit_link.specs.steps.GroupOrderSteps.{AreByName, indices_of_names};

use crate::refusal::defined_twice;
use std::alloc::{AllocError, Global};
use wit_data::{Items, PackageName, Table, TryClone, UnresolvedPackage};
use wit_graph_data::ResolveResult;

/// Each unresolved package's index under its name. Refused where two have one name.
pub(crate) fn indices_by_name(
    alloc: Global,
    unresolved: &Items<(UnresolvedPackage, u32)>,
) -> ResolveResult<Table<PackageName, usize>>
    ensures ok { IfOk result (λ places. places ≡ indices_of_names (names_of unresolved.now)) }
    ensures cause { IfErr result (λ kind. (kind ≡ OutOfMemory) ⊎ IsSortCause unresolved.now kind) }
{
    let mut places = Table::new(alloc);
    for (place, entry) in unresolved.as_slice().iter().enumerate() {
        let name = &entry.0.name;
        if let Some(earlier) = places.get(name) {
            return Err(defined_twice(unresolved, place, *earlier));
        }
        places.push(name.try_clone()?, place)?;
    }
    Ok(places)
}

/// The indices in the order of the names.
pub(crate) fn package_indices_by_name(
    alloc: Global,
    places: Table<PackageName, usize>,
) -> Result<Items<usize>, AllocError>
    ensures { IfOk result (AreByName places) }
{
    let mut map = places.into_map()?;
    map.sort_keys()?;
    values_of(alloc, &Table::from_map(map)?)
}

/// The values of a table, in order.
fn values_of(alloc: Global, places: &Table<PackageName, usize>) -> Result<Items<usize>, AllocError>
    ensures { IfOk result (λ values. values ≡ values_of places.now) }
{
    let mut values = Items::new(alloc);
    for (_, place) in places.iter() {
        values.push(*place)?;
    }
    Ok(values)
}
