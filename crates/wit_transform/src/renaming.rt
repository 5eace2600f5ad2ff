//! The new name of a transformed world, and the table of its package.
ghost use Rattle.std.specs.Prelude.{◌≡◌, ◌↔◌, Contains, IfOk, IsTrue, OnErr, OnOk, nat_eq, not, string_bytes};
ghost use Rattle.std.specs.Option.{option_map};
ghost use Rattle.wit_data.specs.Each.{Each};
ghost use Rattle.wit_transform.specs.steps.Parts.{new_name, put_last, NameIsTakenIn};

use std::alloc::{AllocError, Global};
use wit_data::{Text, WorldId};
use wit_graph_data::Package;

/// The new name of a world: the one that is given, or else its old one with a suffix.
pub(crate) fn renamed(
    alloc: Global,
    name: &Text,
    out: Option<String>,
    suffix: &str,
) -> Result<Text, AllocError>
    ensures { IfOk result
        (λ new. new ≡ new_name suffix.now (option_map string_bytes out) name.now) }
{
    match out {
        Some(out) => Ok(Text::from_string(out)),
        None => Ok(Text::from_string(format!(in alloc; "{name}{suffix}")?)),
    }
}

/// Whether a world is another than this.
fn is_other(id: WorldId, world: WorldId) -> bool
    ensures { result ≡ not (nat_eq id world) }
{
    id.index() != world.index()
}

/// Whether a package has another world of this name.
pub(crate) fn is_taken(home: &Package, world: WorldId, name: &str) -> bool
    ensures { IsTrue result ↔ NameIsTakenIn home.now world name.now }
{
    home.worlds.keys_differ();
    match home.worlds.get(name) {
        Some(id) => is_other(*id, world),
        None => false,
    }
}

/// Puts a world of a package last in its table, under a new name, which no other world has. The table has
/// the world once, under its old name. The others aren't copied; where there is no memory all is as before.
pub(crate) fn rename_last(
    alloc: Global,
    home: &mut Package,
    world: WorldId,
    old_name: &str,
    name: &str,
) -> Result<(), AllocError>
    requires listed { Contains home.old.worlds (old_name.now, world) }
    requires once { Each (λ e. e.1 ≡ world → e.0 ≡ old_name.now) home.old.worlds }
    requires free { ¬ (NameIsTakenIn home.old world name.now) }
    ensures ok { OnOk result
        (home.new ≡ record home.old { worlds = put_last home.old.worlds world name.now }) }
    ensures unchanged { OnErr result (home.new ≡ home.old) }
{
    home.worlds.keys_differ();
    if name == old_name {
        home.worlds.move_last(old_name);
        return Ok(());
    }
    home.worlds.push(String::from_str(alloc, name)?, world)?;
    let _ = home.worlds.shift_remove(old_name);
    Ok(())
}
