//! The keys of tables, which differ since they are keys of tables: facts for proofs, which do nothing.
ghost use Rattle.wit_data.specs.Each.{Each};
ghost use Rattle.wit_data.specs.Foreign.{ForeignItem};
ghost use Rattle.wit_data.specs.Shape.{KeysDiffer};
ghost use Rattle.wit_data.specs.declared.interface.Interface.{Interface};
ghost use Rattle.wit_names.specs.declared.package_name.PackageName.{PackageName};
ghost use Rattle.wit_data.specs.declared.world.World.{World};
ghost use Rattle.std.specs.Prelude.{List};
ghost use Rattle.wit_values.specs.Table.{HasDistinctKeys};

use wit_data::{AstItem, Interface, PackageName, Stability, UnresolvedPackage, World};
use wit_values::{Items, Names, Table};

/// The keys of each table of an unresolved package differ.
pub(crate) fn keys_differ(unresolved: &UnresolvedPackage)
    ensures { KeysDiffer unresolved.now }
{
    interfaces_keys_differ(unresolved.interfaces.as_slice());
    worlds_keys_differ(unresolved.worlds.as_slice());
    deps_keys_differ(&unresolved.foreign_deps);
}

/// The names in the tables of interfaces differ.
pub fn interfaces_keys_differ(interfaces: &[Interface])
    ensures types { Each (λ (interface : Interface). HasDistinctKeys interface.types)
        interfaces.now }
    ensures functions { Each (λ (interface : Interface). HasDistinctKeys interface.functions)
        interfaces.now }
{
    interfaces
        .iter()
        .for_each(|interface| interface.types.keys_differ());
    interfaces
        .iter()
        .for_each(|interface| interface.functions.keys_differ());
}

/// The keys of the entries of worlds differ.
pub fn worlds_keys_differ(worlds: &[World])
    ensures imports { Each (λ (world : World). HasDistinctKeys world.imports) worlds.now }
    ensures exports { Each (λ (world : World). HasDistinctKeys world.exports) worlds.now }
{
    worlds.iter().for_each(|world| world.imports.keys_differ());
    worlds.iter().for_each(|world| world.exports.keys_differ());
}

fn deps_keys_differ(deps: &Table<PackageName, Names<(AstItem, Items<Stability>)>>)
    ensures packages { HasDistinctKeys deps.now }
    ensures items { Each (λ (e : PackageName × List ForeignItem). HasDistinctKeys e.1) deps.now }
{
    deps.keys_differ();
    for (_, named) in deps.iter() {
        named.keys_differ();
    }
}
