//! Whether the interfaces without names that stand in worlds are of the worlds' packages, and whether
//! worlds list no includes.
ghost use Rattle.std.specs.Prelude.{◌≡◌, ◌↔◌, [], None, IsTrue};
ghost use Rattle.wit_elaboration.specs.Valid.{IsOfPackage};
ghost use Rattle.wit_data.specs.Each.{Each};
ghost use Rattle.wit_data.specs.Entries.{Entry};
ghost use Rattle.wit_data.specs.declared.world.World.{World};

use wit_data::{Interface, PackageId, Table, World, WorldItem, WorldKey};

/// Whether the interfaces without names among the imports of worlds are of the worlds' packages.
pub(crate) fn import_own(interfaces: &[Interface], worlds: &[World]) -> bool
    ensures { IsTrue result
        ↔ Each (λ (world : World).
        Each (λ (e : Entry). IsOfPackage interfaces.now world.package e.1) world.imports)
        worlds.now }
{
    worlds.iter().all(|world| are_of_package(interfaces, &world.package, &world.imports))
}

/// Whether those among the exports are.
pub(crate) fn export_own(interfaces: &[Interface], worlds: &[World]) -> bool
    ensures { IsTrue result
        ↔ Each (λ (world : World).
        Each (λ (e : Entry). IsOfPackage interfaces.now world.package e.1) world.exports)
        worlds.now }
{
    worlds.iter().all(|world| are_of_package(interfaces, &world.package, &world.exports))
}

fn are_of_package(
    interfaces: &[Interface],
    home: &Option<PackageId>,
    entries: &Table<WorldKey, WorldItem>,
) -> bool
    ensures { IsTrue result
        ↔ Each (λ (e : Entry). IsOfPackage interfaces.now home.now e.1) entries.now }
{
    for (_, item) in entries.iter() {
        if !is_of_package(interfaces, home, item) {
            return false;
        }
    }
    true
}

/// Whether an item is no interface without a name, or one of this package.
pub fn is_of_package(interfaces: &[Interface], home: &Option<PackageId>, item: &WorldItem) -> bool
    ensures { IsTrue result ↔ IsOfPackage interfaces.now home.now item.now }
{
    match item {
        WorldItem::Interface { id, .. } => match interfaces.get(id.index()) {
            Some(interface) => is_named_or_of(interface, home),
            None => false,
        },
        WorldItem::Function(_) | WorldItem::Type_ { .. } => true,
    }
}

fn is_named_or_of(interface: &Interface, home: &Option<PackageId>) -> bool
    ensures { IsTrue result ↔ ((interface.now.name ≡ None) → interface.now.package ≡ home.now) }
{
    interface.name.is_some() || same_package(&interface.package, home)
}

fn same_package(a: &Option<PackageId>, b: &Option<PackageId>) -> bool
    ensures { IsTrue result ↔ (a.now ≡ b.now) }
{
    match (a, b) {
        (Some(a), Some(b)) => a == b,
        (None, None) => true,
        _ => false,
    }
}

/// Whether no world lists an include.
pub(crate) fn include_nothing(worlds: &[World]) -> bool
    ensures { IsTrue result ↔ Each (λ (world : World). world.includes ≡ []) worlds.now }
{
    worlds.iter().all(|world| world.includes.is_empty())
}
