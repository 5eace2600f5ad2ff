//! Whether packages name each other's things as they should: names of packages, and tables.
ghost use Rattle.std.specs.Prelude.{◌≡◌, ℕ, Contains, List};
ghost use Rattle.wit_data.specs.Each.{SomeAt};
ghost use Rattle.wit_elaboration.specs.Valid.{IsInTable, IsInterfaceOf, IsWorldInTable, IsWorldOf};
ghost use Rattle.wit_graph_data.specs.declared.graph.Package.{Package};
ghost use Rattle.wit_graph_faults.specs.declared.place.GraphPlace.TheVariants as place;
ghost use Rattle.wit_names.specs.declared.package_name.PackageName.{PackageName};
ghost use Rattle.wit_shape.specs.First.{FindsFirst, FindsWithin};

use crate::place::GraphPlace;
use wit_data::{Interface, InterfaceId, Names, PackageId, PackageName, Table, World, WorldId};
use wit_graph_data::Package;
use wit_validity::package_names::{has_this_name, names_package};
use wit_validity::tables::{is_in_table, is_interface_of, is_world_in_table, is_world_of};

/// The first name of a package that isn't there or has another name.
pub(crate) fn own_names(
    packages: &[Package],
    names: &Table<PackageName, PackageId>,
) -> Option<GraphPlace>
    ensures { FindsFirst place.PackageName
        (λ _ (e : PackageName × ℕ). SomeAt packages.now e.1 (λ (home : Package). home.name ≡ e.0))
        names.now result }
{
    for index in 0..names.len() {
        let (name, id) = names.entry_at(index);
        if !has_this_name(packages, *id, name) {
            return Some(GraphPlace::PackageName(index));
        }
    }
    None
}

/// The first package that isn't listed under its name.
pub(crate) fn listed(
    packages: &[Package],
    names: &Table<PackageName, PackageId>,
) -> Option<GraphPlace>
    ensures { FindsFirst place.Package
        (λ p (home : Package). Contains names.now (home.name, p)) packages.now result }
{
    for (index, home) in packages.iter().enumerate() {
        if !names_package(names, &home.name, index) {
            return Some(GraphPlace::Package(PackageId::from_index(index)));
        }
    }
    None
}

/// The first interface that has no package, or isn't in its table under its name.
pub(crate) fn interfaces_listed(
    packages: &[Package],
    interfaces: &[Interface],
) -> Option<GraphPlace>
    ensures { FindsFirst place.Interface (IsInTable packages.now) interfaces.now result }
{
    for (index, interface) in interfaces.iter().enumerate() {
        if !is_in_table(packages, index, interface) {
            return Some(GraphPlace::Interface(InterfaceId::from_index(index)));
        }
    }
    None
}

/// The first world that has no package, or isn't in its table under its name.
pub(crate) fn worlds_listed(packages: &[Package], worlds: &[World]) -> Option<GraphPlace>
    ensures { FindsFirst place.World (IsWorldInTable packages.now) worlds.now result }
{
    for (index, world) in worlds.iter().enumerate() {
        if !is_world_in_table(packages, index, world) {
            return Some(GraphPlace::World(WorldId::from_index(index)));
        }
    }
    None
}

/// The first entry of a package's interfaces that isn't an interface of that name in that package.
pub(crate) fn interfaces(packages: &[Package], interfaces: &[Interface]) -> Option<GraphPlace>
    ensures { FindsWithin place.PackageInterface
        (λ p (home : Package) (e : List ℕ × ℕ). IsInterfaceOf interfaces.now p e.0 e.1)
        (λ (home : Package). home.interfaces) packages.now result }
{
    for (index, home) in packages.iter().enumerate() {
        if let Some(at) = interface_of_another(interfaces, index, &home.interfaces) {
            return Some(GraphPlace::PackageInterface(PackageId::from_index(index), at));
        }
    }
    None
}

fn interface_of_another(
    interfaces: &[Interface],
    home: usize,
    table: &Names<InterfaceId>,
) -> Option<usize>
    ensures { FindsFirst (λ i. i)
        (λ _ (e : List ℕ × ℕ). IsInterfaceOf interfaces.now home e.0 e.1) table.now result }
{
    for index in 0..table.len() {
        let (name, id) = table.entry_at(index);
        if !is_interface_of(interfaces, home, name, *id) {
            return Some(index);
        }
    }
    None
}

/// The first entry of a package's worlds that isn't a world of that name in that package.
pub(crate) fn worlds(packages: &[Package], worlds: &[World]) -> Option<GraphPlace>
    ensures { FindsWithin place.PackageWorld
        (λ p (home : Package) (e : List ℕ × ℕ). IsWorldOf worlds.now p e.0 e.1)
        (λ (home : Package). home.worlds) packages.now result }
{
    for (index, home) in packages.iter().enumerate() {
        if let Some(at) = world_of_another(worlds, index, &home.worlds) {
            return Some(GraphPlace::PackageWorld(PackageId::from_index(index), at));
        }
    }
    None
}

fn world_of_another(worlds: &[World], home: usize, table: &Names<WorldId>) -> Option<usize>
    ensures { FindsFirst (λ i. i)
        (λ _ (e : List ℕ × ℕ). IsWorldOf worlds.now home e.0 e.1) table.now result }
{
    for index in 0..table.len() {
        let (name, id) = table.entry_at(index);
        if !is_world_of(worlds, home, name, *id) {
            return Some(index);
        }
    }
    None
}
