//! Whether a world can be elaborated.
ghost use Rattle.std.specs.Prelude.{◌↔◌, IfOk, IsTrue};
ghost use Rattle.wit_elaboration.specs.Elaboration.{CanElaborate};
ghost use Rattle.wit_elaboration.specs.Sound.{AreSound, HasSoundEntries, IsRoleInRange, IsUnderOwnKey};

use crate::role::{Role, item_interface};
use std::alloc::{AllocError, Global};
use wit_data::{TypeDef, World, WorldId, WorldItem, WorldKey, uses_of};
use wit_digraph::is_acyclic;
use wit_graph_data::Graph;
use wit_values::Table;

/// Whether `elaborate` may be called for a world: the world is there, uses of interfaces have no cycle, the key of an
/// interface names that interface, and the interfaces of all entries are there. A valid graph has this for each of its
/// worlds. Any graph may be asked. The only error is want of memory.
pub fn is_elaborable(alloc: Global, graph: &Graph, world: WorldId) -> Result<bool, AllocError>
    ensures { IfOk result (λ elaborable. IsTrue elaborable ↔ CanElaborate graph.now world) }
{
    let Some(listed) = graph.worlds.get(world.index()) else {
        return Ok(false);
    };
    let types = graph.types.as_slice();
    if !has_sound_entries(types, graph.interfaces.len(), listed) {
        return Ok(false);
    }
    let uses = uses_of(alloc, types, graph.interfaces.as_slice())?;
    is_acyclic(alloc, uses.as_slice())
}

/// Whether the keys and ids of a world are in order, over these types and so many interfaces: what
/// stands under the key of an interface is that interface, and the interfaces of all entries are there.
fn has_sound_entries(types: &[TypeDef], interfaces: usize, world: &World) -> bool
    ensures { IsTrue result
        ↔ HasSoundEntries types.now interfaces world.now.imports world.now.exports }
{
    are_sound(types, interfaces, &world.imports) && are_sound(types, interfaces, &world.exports)
}

/// Whether the keys and ids of entries are in order.
fn are_sound(types: &[TypeDef], interfaces: usize, entries: &Table<WorldKey, WorldItem>) -> bool
    ensures { IsTrue result ↔ AreSound types.now interfaces entries.now }
{
    for (key, item) in entries.iter() {
        if !is_under_own_key(key, item) || !is_role_in_range(Role::of(types, item), interfaces) {
            return false;
        }
    }
    true
}

/// Whether what stands under the key of an interface is that interface.
fn is_under_own_key(key: &WorldKey, item: &WorldItem) -> bool
    ensures { IsTrue result ↔ IsUnderOwnKey key.now item.now }
{
    match key {
        WorldKey::Interface(id) => match item_interface(item) {
            Some(interface) => interface == *id,
            None => false,
        },
        WorldKey::Name(_) => true,
    }
}

/// Whether the interface of an item, or of the type that it uses, is there.
fn is_role_in_range(role: Role, interfaces: usize) -> bool
    ensures { IsTrue result ↔ IsRoleInRange interfaces role }
{
    match role {
        Role::Instance(id) | Role::TypeUse(id) => id.index() < interfaces,
        Role::TypeDefinition | Role::FreeFunction | Role::ResourceFunction => true,
    }
}
