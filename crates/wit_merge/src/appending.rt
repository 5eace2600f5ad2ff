//! What comes of another graph goes behind what a graph has.
ghost use Rattle.std.specs.Prelude.{◌≡◌, ◌++◌, ◌⊎◌, IfErr, IfOk, OnErr, OnOk, length, map};
ghost use Rattle.wit_digraph.specs.Relation.{IsAcyclic};
ghost use Rattle.wit_values.specs.Table.{HasDistinctKeys};
ghost use Rattle.wit_data.specs.declared.world.World.{World};
ghost use Rattle.wit_elaboration.specs.Elaboration.{IsConflictError, elaborated_world as elaborated_by, graph_uses};
ghost use Rattle.wit_elaboration.specs.steps.Elaboration.{IsRefusedWorld};
ghost use Rattle.wit_elaboration.specs.Imported.{HasTransitiveConflict};
ghost use Rattle.wit_elaboration.specs.Sound.{HasSoundEntries};
ghost use Rattle.wit_graph_data.specs.declared.error_kind.ResolveErrorKind.TheVariants.{OutOfMemory};
ghost use Rattle.wit_remap.specs.Grown.{Begins, Grown};
ghost use Rattle.wit_merge.specs.steps.Behind.{AreClear, AreListed, CanAppend, IsAppendCause, IsFine, with_coming, with_elaborated};

use crate::coming::Coming;
use crate::results::check_returned;
use std::alloc::{AllocError, Global};
use wit_data::{Interface, Items, PackageId, PackageName, Table, World};
use wit_elaboration::Elaborator;
use wit_graph_data::{Graph, Package, ResolveResult};
use wit_remap::Mark;

/// Puts what comes behind what a graph has, its worlds elaborated, where no function that comes returns a borrow (15) and
/// no world that comes is in conflict (4). The elaborator is one of the graph, and becomes one of the new graph. After
/// a refusal both are as before.
pub(crate) fn append(
    alloc: Global,
    graph: &mut Graph,
    elaborator: &mut Elaborator,
    coming: Coming,
) -> ResolveResult<()>
    requires uses { elaborator.old ≡ graph_uses graph.old }
    requires can { CanAppend graph.old coming }
    ensures ok { OnOk result (graph.new ≡ with_elaborated graph.old coming) }
    ensures uses { OnOk result (elaborator.new ≡ graph_uses (with_coming graph.old coming)) }
    ensures fine { OnOk result (IsFine graph.old coming) }
    ensures unchanged { OnErr result (graph.new ≡ graph.old) }
    ensures rows_err { OnErr result (elaborator.new ≡ elaborator.old) }
    ensures grown { Grown graph.old graph.new }
    ensures rows { Begins elaborator.old elaborator.new }
    ensures cause { IfErr result
        (λ kind. (kind ≡ OutOfMemory) ⊎ IsAppendCause graph.old coming kind) }
{
    let mark = Mark::of(graph);
    let rows = elaborator.interfaces();
    let appended = append_parts(alloc, graph, elaborator, coming);
    if appended.is_err() {
        mark.cut(graph);
        elaborator.cut(rows);
    }
    appended
}

/// The same. After a refusal the graph and the rows of the elaborator may have grown at their ends.
fn append_parts(
    alloc: Global,
    graph: &mut Graph,
    elaborator: &mut Elaborator,
    coming: Coming,
) -> ResolveResult<()>
    requires uses { elaborator.old ≡ graph_uses graph.old }
    requires can { CanAppend graph.old coming }
    ensures ok { OnOk result (graph.new ≡ with_elaborated graph.old coming) }
    ensures uses { OnOk result (elaborator.new ≡ graph_uses (with_coming graph.old coming)) }
    ensures fine { OnOk result (IsFine graph.old coming) }
    ensures grown { Grown graph.old graph.new }
    ensures rows { Begins elaborator.old elaborator.new }
    ensures cause { IfErr result
        (λ kind. (kind ≡ OutOfMemory) ⊎ IsAppendCause graph.old coming kind) }
{
    let Coming {
        types,
        interfaces,
        worlds,
        packages,
        package_names,
    } = coming;
    graph.types.append(types)?;
    check_returned(alloc, graph.types.as_slice(), &interfaces, &worlds)?;
    append_homes(graph, interfaces, packages, package_names)?;
    let types = graph.types.as_slice();
    elaborator.grow(alloc, types, graph.interfaces.as_slice())?;
    let worlds = elaborated_worlds(alloc, graph, elaborator, worlds)?;
    Ok(graph.worlds.append(worlds)?)
}

/// Puts interfaces and packages, with the names of these, behind those of a graph. Where there is no memory some of them
/// may be there.
fn append_homes(
    graph: &mut Graph,
    interfaces: Items<Interface>,
    packages: Items<Package>,
    names: Items<(PackageName, PackageId)>,
) -> Result<(), AllocError>
    requires { HasDistinctKeys (graph.old.package_names ++ names) }
    ensures ok { OnOk result (graph.new
        ≡ record graph.old {
          interfaces = graph.old.interfaces ++ interfaces;
          packages = graph.old.packages ++ packages;
          package_names = graph.old.package_names ++ names;
        }) }
    ensures grown { Grown graph.old graph.new }
{
    graph.interfaces.append(interfaces)?;
    graph.packages.append(packages)?;
    append_names(&mut graph.package_names, names)
}

/// Adds names of packages with their ids. Where there is no memory some of them may be there.
fn append_names(
    names: &mut Table<PackageName, PackageId>,
    coming: Items<(PackageName, PackageId)>,
) -> Result<(), AllocError>
    requires { HasDistinctKeys (names.old ++ coming) }
    ensures ok { OnOk result (names.new ≡ names.old ++ coming) }
    ensures begins { Begins names.old names.new }
{
    for (name, id) in coming.into_vec() {
        names.push(name, id)?;
    }
    Ok(())
}

/// Worlds elaborated over the types and interfaces of a graph.
fn elaborated_worlds(
    alloc: Global,
    graph: &Graph,
    elaborator: &mut Elaborator,
    worlds: Items<World>,
) -> ResolveResult<Items<World>>
    requires uses { elaborator.old ≡ graph_uses graph.now }
    requires acyclic { IsAcyclic (graph_uses graph.now) }
    requires listed { AreListed graph.now worlds }
    ensures ok { IfOk result (λ elaborated. elaborated ≡ map (elaborated_by graph.now) worlds) }
    ensures clear { OnOk result (AreClear graph.now worlds) }
    ensures cause { IfErr result (λ kind.
        (kind ≡ OutOfMemory) ⊎ IsRefusedWorld (record graph.now { worlds = worlds }) kind) }
    ensures same { elaborator.new ≡ elaborator.old }
{
    let mut elaborated = Items::new(alloc);
    for world in worlds.into_vec() {
        elaborated.push(elaborated_world(alloc, graph, elaborator, world)?)?;
    }
    Ok(elaborated)
}

/// A world elaborated over the types and interfaces of a graph. One that is complete stays as it is.
fn elaborated_world(
    alloc: Global,
    graph: &Graph,
    elaborator: &mut Elaborator,
    mut world: World,
) -> ResolveResult<World>
    requires uses { elaborator.old ≡ graph_uses graph.now }
    requires acyclic { IsAcyclic (graph_uses graph.now) }
    requires listed { HasSoundEntries graph.now.types (length graph.now.interfaces) world.imports
        world.exports }
    ensures ok { IfOk result (λ new. new ≡ elaborated_by graph.now world) }
    ensures no_conflict { OnOk result
        (HasTransitiveConflict (graph_uses graph.now) world.exports → ⊥) }
    ensures cause { IfErr result (λ e. (e ≡ OutOfMemory) ⊎ IsConflictError graph.now world e) }
    ensures same { elaborator.new ≡ elaborator.old }
{
    let complete = elaborator.is_complete(graph, &world)?;
    if complete {
        return Ok(world);
    }
    let lists = elaborator.lists_for(alloc, graph, &world)?;
    world.imports = lists.imports;
    world.exports = lists.exports;
    Ok(world)
}
