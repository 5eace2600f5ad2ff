//! Which interfaces use which, of a graph or of a package.
ghost use Rattle.std.specs.Prelude.{◌≡◌, ◌++◌, ℕ, List, IfOk, OnOk, filter_map};
ghost use Rattle.wit_ways.specs.Arrows.{interface_arrows, use_arrow, uses_in};

use crate::arrow::{Arrow, arrow_between, called, placed};
use std::alloc::{AllocError, Global};
use wit_data::{Interface, InterfaceId, Items, Names, Text, TypeDef, TypeId, type_interface_dep};
use wit_graph_data::Features;
use wit_link_spec::is_active;

/// Which interfaces use types of which, each by these names, where the types that use others are active under these
/// features; at the types' spans, so many positions further on.
pub fn uses_in(
    alloc: Global,
    features: &Features,
    offset: u32,
    types: &[TypeDef],
    interfaces: &Items<Interface>,
    names: &[Option<Text>],
) -> Result<Items<Arrow>, AllocError>
    ensures { IfOk result
        (λ arrows. arrows ≡ uses_in features.now offset types.now interfaces.now names.now) }
{
    let mut arrows = Items::new(alloc);
    for index in 0..interfaces.len() {
        let user = InterfaceId::from_index(index);
        add_uses(
            features,
            offset,
            types,
            interfaces,
            names,
            user,
            &mut arrows,
        )?;
    }
    Ok(arrows)
}

/// Notes what an interface uses.
fn add_uses(
    features: &Features,
    offset: u32,
    types: &[TypeDef],
    interfaces: &Items<Interface>,
    names: &[Option<Text>],
    user: InterfaceId,
    arrows: &mut Items<Arrow>,
) -> Result<(), AllocError>
    ensures { OnOk result (arrows.new
        ≡ arrows.old
        ++ interface_arrows features.now offset types.now interfaces.now names.now user) }
{
    match interfaces.get(user.index()) {
        Some(interface) => {
            let own = &interface.types;
            add_types(features, offset, types, names, user, own, arrows)
        }
        None => Ok(()),
    }
}

/// Notes what an interface uses by these of its types.
fn add_types(
    features: &Features,
    offset: u32,
    types: &[TypeDef],
    names: &[Option<Text>],
    user: InterfaceId,
    own: &Names<TypeId>,
    arrows: &mut Items<Arrow>,
) -> Result<(), AllocError>
    ensures { OnOk result (arrows.new
        ≡ arrows.old
        ++ filter_map
        (λ (e : List ℕ × ℕ). use_arrow features.now offset types.now names.now user e.1)
        own.now) }
{
    for (_, id) in own.iter() {
        if let Some(arrow) = use_arrow(features, offset, types, names, user, *id)? {
            arrows.push(arrow)?;
        }
    }
    Ok(())
}

/// What an interface uses by a type.
fn use_arrow(
    features: &Features,
    offset: u32,
    types: &[TypeDef],
    names: &[Option<Text>],
    user: InterfaceId,
    id: TypeId,
) -> Result<Option<Arrow>, AllocError>
    ensures { IfOk result
        (λ arrow. arrow ≡ use_arrow features.now offset types.now names.now user id) }
{
    let Some(def) = types.get(id.index()) else {
        return Ok(None);
    };
    if !is_active(features, &def.stability) {
        return Ok(None);
    }
    let Some(used) = type_interface_dep(types, id) else {
        return Ok(None);
    };
    let Some(from) = called(names, user) else {
        return Ok(None);
    };
    let Some(to) = called(names, used) else {
        return Ok(None);
    };
    arrow_between(from, placed(def.span, offset), to)
}
