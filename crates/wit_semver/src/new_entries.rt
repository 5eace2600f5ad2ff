//! The graph whose types name what they name after semver merging, and whose world lists what stays.
ghost use Rattle.std.specs.Prelude.{◌≡◌, ◌<◌, IfOk, length};
ghost use Rattle.wit_semver.specs.steps.Replacing.{with_lists, with_targets};
ghost use Rattle.wit_semver.specs.steps.Parts.{retargeted};

use std::alloc::{AllocError, Global};
use std::mem;
use wit_data::{Items, Table, Type_, TypeDef, TypeDefKind, TypeId, WorldId, WorldItem, WorldKey};
use wit_graph_data::Graph;
use wit_values::{TryClone, try_clone_three};

/// A copy of a graph whose types name what they are told to, and whose world of an id has these
/// imports.
pub(crate) fn with_new_entries(
    alloc: Global,
    graph: &Graph,
    world: WorldId,
    imports: Table<WorldKey, WorldItem>,
    targets: &Table<TypeId, TypeId>,
) -> Result<Graph, AllocError>
    requires { world < length graph.now.worlds }
    ensures { IfOk result (λ made. made ≡ with_lists graph.now world imports targets.now) }
{
    let types = retargeted_types(alloc, &graph.types, targets)?;
    let mut worlds = graph.worlds.try_clone()?;
    let current = worlds.at_mut(world.index());
    current.imports = imports;
    let (interfaces, packages, package_names) = try_clone_three(
        &graph.interfaces,
        &graph.packages,
        &graph.package_names,
    )?;
    Ok(Graph {
        types,
        interfaces,
        worlds,
        packages,
        package_names,
    })
}

/// Copies of types, each naming what it is told to.
fn retargeted_types(
    alloc: Global,
    types: &Items<TypeDef>,
    targets: &Table<TypeId, TypeId>,
) -> Result<Items<TypeDef>, AllocError>
    ensures { IfOk result (λ made. made ≡ with_targets types.now targets.now) }
{
    let mut made = Items::new(alloc);
    for index in 0..types.len() {
        let target = targets.get(&TypeId::from_index(index)).copied();
        made.push(retargeted(types.at(index), target)?)?;
    }
    Ok(made)
}

/// A copy of a type, as an alias of another one where it is told to be.
fn retargeted(def: &TypeDef, target: Option<TypeId>) -> Result<TypeDef, AllocError>
    ensures { IfOk result (λ made. made ≡ retargeted def.now target) }
{
    let mut made = def.try_clone()?;
    if let Some(id) = target {
        made.kind = TypeDefKind::Type_(Type_::Id(id));
    }
    Ok(made)
}
