//! Which interfaces use which, as the aliases of a list of types tell.
ghost use Rattle.std.specs.Prelude.{◌≡◌, IfOk};
ghost use Rattle.wit_data.specs.Uses.{alias_target, interface_uses, type_interface_dep, uses_of};

use crate::ids::{InterfaceId, TypeId};
use crate::interface::Interface;
use crate::types::{Type_, TypeDef, TypeDefKind, TypeOwner};
use std::alloc::{AllocError, Global};
use wit_values::Items;

/// The type of the list that an alias names, None of an alias of a primitive and of any other kind.
pub fn alias_target(kind: &TypeDefKind) -> Option<TypeId>
    ensures { result ≡ alias_target kind.now }
{
    match kind {
        TypeDefKind::Type_(Type_::Id(target)) => Some(*target),
        _ => None,
    }
}

/// Of an alias of a type that an interface owns, which isn't the alias's own owner, that interface;
/// else None, also where the type isn't there. All ids are indices in the same lists.
///
/// Source: `type_interface_dep` of wit-parser 0.263.0.
pub fn type_interface_dep(types: &[TypeDef], id: TypeId) -> Option<InterfaceId>
    ensures { result ≡ type_interface_dep types.now id }
{
    let alias = types.get(id.index())?;
    let target = alias_target(&alias.kind)?;
    let named = types.get(target.index())?;
    match named.owner {
        TypeOwner::Interface(owner) if alias.owner != named.owner => Some(owner),
        _ => None,
    }
}

/// The interfaces that an interface uses: the answers of `type_interface_dep` over its types in
/// order, with repeats. The only error is want of memory.
///
/// Source: `interface_direct_deps` of wit-parser 0.263.0.
pub fn interface_uses(
    alloc: Global,
    types: &[TypeDef],
    interface: &Interface,
) -> Result<Items<usize>, AllocError>
    ensures { IfOk result (λ uses. uses ≡ interface_uses types.now interface.now) }
{
    let mut uses = Items::new(alloc);
    for (_, id) in interface.types.iter() {
        match type_interface_dep(types, *id) {
            Some(used) => uses.push(used.index())?,
            None => {}
        }
    }
    Ok(uses)
}

/// The adjacency lists of a list of interfaces: row i has the interfaces that interface i uses, both
/// from 0. The only error is want of memory.
pub fn uses_of(
    alloc: Global,
    types: &[TypeDef],
    interfaces: &[Interface],
) -> Result<Items<Items<usize>>, AllocError>
    ensures { IfOk result (λ rows. rows ≡ uses_of types.now interfaces.now) }
{
    let mut rows = Items::new(alloc);
    for interface in interfaces {
        rows.push(interface_uses(alloc, types, interface)?)?;
    }
    Ok(rows)
}
