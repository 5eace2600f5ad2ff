//! Of which other packages a package names interfaces and worlds.
ghost use Rattle.std.specs.Prelude.{◌≡◌, IfOk, OnOk, option_copied};
ghost use Rattle.wit_data.specs.declared.unresolved.AstItem.{AstItem};
ghost use Rattle.wit_ways.specs.Packages.{is_item, item_home, names_item};
ghost use Rattle.wit_ways.specs.steps.ForeignHomes.{AreHomes, first_home, home_place, or_place};

use indexmap::IndexMap;
use std::alloc::{AllocError, Global};
use wit_data::{
    AstItem, InterfaceId, Items, Names, PackageName, Stability, UnresolvedPackage, WorldId,
};

/// Of which other package each interface and each world is named: by its id the place of the package in `foreign_deps`.
#[derive(Drop)]
pub struct ForeignHomes {
    pub interfaces: IndexMap<InterfaceId, usize>,
    pub worlds: IndexMap<WorldId, usize>,
}

impl ForeignHomes {
    /// Those of a package.
    pub fn of(alloc: Global, package: &UnresolvedPackage) -> Result<ForeignHomes, AllocError>
        ensures { IfOk result (λ homes. AreHomes «package».now homes) }
    {
        let mut homes = ForeignHomes {
            interfaces: IndexMap::new(alloc),
            worlds: IndexMap::new(alloc),
        };
        for place in 0..package.foreign_deps.len() {
            let (_, items) = package.foreign_deps.entry_at(place);
            homes.add_items(place, items)?;
        }
        Ok(homes)
    }

    /// Notes that items are named of the package at a place, of each for which none is noted yet.
    fn add_items(
        &mut self,
        place: usize,
        items: &Names<(AstItem, Items<Stability>)>,
    ) -> Result<(), AllocError>
        ensures { OnOk result ((it : AstItem)
            → home_place self.new it
            ≡ or_place (home_place self.old it) (names_item it items.now) place) }
    {
        for (_, named) in items.iter() {
            self.add_item(place, &named.0)?;
        }
        Ok(())
    }

    /// Notes that an item is named of the package at a place, where none is noted yet.
    fn add_item(&mut self, place: usize, item: &AstItem) -> Result<(), AllocError>
        ensures { OnOk result ((it : AstItem)
            → home_place self.new it
            ≡ or_place (home_place self.old it) (is_item it item.now) place) }
    {
        match item {
            AstItem::Interface(id) => {
                if !self.interfaces.contains_key(id) {
                    self.interfaces.insert(*id, place)?;
                }
            }
            AstItem::World(id) => {
                if !self.worlds.contains_key(id) {
                    self.worlds.insert(*id, place)?;
                }
            }
        }
        Ok(())
    }

    /// The place of the package of which an item is named.
    fn place(&self, item: &AstItem) -> Option<&usize>
        ensures { option_copied result ≡ home_place self.now item.now }
    {
        match item {
            AstItem::Interface(id) => self.interfaces.get(id),
            AstItem::World(id) => self.worlds.get(id),
        }
    }
}

/// The name of the package of an interface or a world: the other one of which it is named, or else this one.
pub fn item_home<'a>(
    package: &'a UnresolvedPackage,
    homes: &ForeignHomes,
    item: &AstItem,
) -> &'a PackageName
    requires { AreHomes «package».now homes.now }
    ensures { result.now ≡ item_home «package».now item.now }
{
    match foreign_home(package, homes, item) {
        Some(home) => home,
        None => &package.name,
    }
}

/// The other package of which an item is named.
fn foreign_home<'a>(
    package: &'a UnresolvedPackage,
    homes: &ForeignHomes,
    item: &AstItem,
) -> Option<&'a PackageName>
    requires { AreHomes «package».now homes.now }
    ensures { option_copied result ≡ first_home item.now «package».now.foreign_deps }
{
    let place = homes.place(item)?;
    let (home, _) = package.foreign_deps.get_index(*place)?;
    Some(home)
}
