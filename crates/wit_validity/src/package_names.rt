//! Whether the names of packages name each package once.
ghost use Rattle.std.specs.Prelude.{◌≡◌, ◌↔◌, ℕ, Contains, IsTrue};
ghost use Rattle.wit_elaboration.specs.Valid.{HasPackageNames};
ghost use Rattle.wit_graph_data.specs.declared.graph.Package.{Package};
ghost use Rattle.wit_data.specs.Each.{Each, EachAt, SomeAt};
ghost use Rattle.wit_names.specs.declared.package_name.PackageName.{PackageName};

use wit_data::{PackageId, PackageName, Table};
use wit_graph_data::Package;

/// Whether the names list each package once, under its own name.
pub(crate) fn has_package_names(packages: &[Package], names: &Table<PackageName, PackageId>) -> bool
    ensures { IsTrue result ↔ HasPackageNames packages.now names.now }
{
    names.keys_differ();
    name_their_own(packages, names) && are_named(packages, names)
}

/// Whether each name is that of the package that it names.
fn name_their_own(packages: &[Package], names: &Table<PackageName, PackageId>) -> bool
    ensures { IsTrue result
        ↔ Each
        (λ (e : PackageName × ℕ). SomeAt packages.now e.1 (λ (home : Package). home.name ≡ e.0))
        names.now }
{
    for (name, id) in names.iter() {
        if !has_this_name(packages, *id, name) {
            return false;
        }
    }
    true
}

/// Whether there is such a package, of this name.
pub fn has_this_name(packages: &[Package], id: PackageId, name: &PackageName) -> bool
    ensures { IsTrue result ↔ SomeAt packages.now id (λ (home : Package). home.name ≡ name.now) }
{
    match packages.get(id.index()) {
        Some(home) => same_name(&home.name, name),
        None => false,
    }
}

fn same_name(a: &PackageName, b: &PackageName) -> bool
    ensures { IsTrue result ↔ (a.now ≡ b.now) }
{
    a == b
}

/// Whether each package is named under its name.
fn are_named(packages: &[Package], names: &Table<PackageName, PackageId>) -> bool
    ensures { IsTrue result
        ↔ EachAt (λ p (home : Package). Contains names.now (home.name, p)) packages.now }
{
    packages
        .iter()
        .enumerate()
        .all(|(index, home)| names_package(names, &home.name, index))
}

/// Whether the names have a package under a name.
pub fn names_package(
    names: &Table<PackageName, PackageId>,
    name: &PackageName,
    index: usize,
) -> bool
    ensures { IsTrue result ↔ Contains names.now (name.now, index) }
{
    names.keys_differ();
    match names.get(name) {
        Some(found) => found.index() == index,
        None => false,
    }
}
