//! The interfaces and worlds that an unresolved package names of other packages.
ghost use Rattle.std.specs.Prelude.{◌≡◌, ◌++◌, IfOk, OnOk};
ghost use Rattle.std.specs.List.{flat_map};
ghost use Rattle.wit_data.specs.Foreign.{ForeignItem, foreign_interfaces, foreign_worlds, interface_id, world_id};

use crate::stability::Stability;
use crate::unresolved::AstItem;
use std::alloc::{AllocError, Global};
use wit_names::PackageName;
use wit_values::{Items, Names, Table};

/// The interfaces that are named of other packages, by their indices in the package's list, in the
/// order in which they are named. The only error is want of memory.
pub fn foreign_interfaces(
    alloc: Global,
    deps: &Table<PackageName, Names<(AstItem, Items<Stability>)>>,
) -> Result<Items<usize>, AllocError>
    ensures { IfOk result (λ ids. ids ≡ foreign_interfaces deps.now) }
{
    let mut ids = Items::new(alloc);
    for (_, named) in deps.iter() {
        push_interfaces(&mut ids, named)?;
    }
    Ok(ids)
}

fn push_interfaces(
    ids: &mut Items<usize>,
    named: &Names<(AstItem, Items<Stability>)>,
) -> Result<(), AllocError>
    ensures { OnOk result
        (ids.new ≡ ids.old ++ flat_map (λ (e : ForeignItem). interface_id e.1.0) named.now) }
{
    for (_, (item, _)) in named.iter() {
        push_interface(ids, *item)?;
    }
    Ok(())
}

fn push_interface(ids: &mut Items<usize>, item: AstItem) -> Result<(), AllocError>
    ensures { OnOk result (ids.new ≡ ids.old ++ interface_id item) }
{
    match item {
        AstItem::Interface(id) => ids.push(id.index()),
        AstItem::World(_) => Ok(()),
    }
}

/// The worlds that are named of other packages, by their indices in the package's list, in the order
/// in which they are named. The only error is want of memory.
pub fn foreign_worlds(
    alloc: Global,
    deps: &Table<PackageName, Names<(AstItem, Items<Stability>)>>,
) -> Result<Items<usize>, AllocError>
    ensures { IfOk result (λ ids. ids ≡ foreign_worlds deps.now) }
{
    let mut ids = Items::new(alloc);
    for (_, named) in deps.iter() {
        push_worlds(&mut ids, named)?;
    }
    Ok(ids)
}

fn push_worlds(
    ids: &mut Items<usize>,
    named: &Names<(AstItem, Items<Stability>)>,
) -> Result<(), AllocError>
    ensures { OnOk result
        (ids.new ≡ ids.old ++ flat_map (λ (e : ForeignItem). world_id e.1.0) named.now) }
{
    for (_, (item, _)) in named.iter() {
        push_world(ids, *item)?;
    }
    Ok(())
}

fn push_world(ids: &mut Items<usize>, item: AstItem) -> Result<(), AllocError>
    ensures { OnOk result (ids.new ≡ ids.old ++ world_id item) }
{
    match item {
        AstItem::World(id) => ids.push(id.index()),
        AstItem::Interface(_) => Ok(()),
    }
}
