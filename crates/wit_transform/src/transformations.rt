//! Turning a world of a graph.
//!
//! The transformed world is made aside, from the graph as it is. At the end it is put in its place, and last in
//! the table of its package, where its old entry goes. All else stays.
ghost use Rattle.std.specs.Prelude.{◌≡◌, ◌⊎◌, ◌<◌, Bool, IfErr, IfOk, IfSome, IsSome, List, OnErr, OnOk, Some, length, slice_get, string_bytes};
ghost use Rattle.std.specs.Option.{option_map};
ghost use Rattle.wit_elaboration.specs.Elaboration.{elaborated_world, IsConflictError, graph_uses};
ghost use Rattle.wit_elaboration.specs.Imported.{HasTransitiveConflict};
ghost use Rattle.wit_elaboration.specs.Sound.{HasSoundEntries};
ghost use Rattle.wit_elaboration.specs.Valid.{HasTables, IsValid};
ghost use Rattle.wit_graph_data.specs.declared.error_kind.ResolveErrorKind.{ResolveErrorKind};
ghost use Rattle.wit_graph_data.specs.declared.error_kind.ResolveErrorKind.TheVariants.{OutOfMemory};
ghost use Rattle.wit_data.specs.Each.{SomeAt};
ghost use Rattle.wit_data.specs.declared.world.World.{World};
ghost use Rattle.wit_digraph.specs.Relation.{IsAcyclic};
ghost use Rattle.wit_transform.specs.Transformed.{AreAnswers, Exportizes, IsExportizeCause, IsImportizeCause, MayAnswer, MayGive, RefusesExportize, imports_at, exportized, importized, transformed};
ghost use Rattle.wit_transform.specs.steps.Transformed.{ExportsAreInConflict, HasPackageAt, NameIsFreeAt};
ghost use Rattle.wit_transform.specs.steps.Parts.{new_name, listed_world, with_world, HasNameTakenAt};

use crate::laws::{exportized_stay_valid, importized_stay_valid};
use crate::new_lists::{exportized_lists, importized_lists, name_taken};
use crate::renaming::{is_taken, rename_last, renamed};
use std::alloc::{AllocError, Global};
use wit_data::{Items, PackageId, Table, Text, World, WorldId, WorldItem, WorldKey};
use wit_elaboration::{Elaborator, Lists};
use wit_graph_data::{Graph, ResolveResult};
use wit_values::try_clone_three;

/// The package of a world.
fn home_of(world: &World) -> PackageId
    requires { IsSome world.now.package }
    ensures { world.now.package ≡ Some result }
{
    match world.package {
        Some(home) => home,
        None => unreachable!(),
    }
}

/// The new name of a world, which no other world of its package has. Refused where one has it (20).
fn free_name(
    alloc: Global,
    graph: &Graph,
    world: WorldId,
    out: Option<String>,
    suffix: &str,
) -> ResolveResult<Text>
    requires world { HasPackageAt graph.now world }
    ensures ok { IfOk result (λ name.
        (current : World) × (slice_get graph.now.worlds world ≡ Some current)
        × (name ≡ new_name suffix.now (option_map string_bytes out) current.name)) }
    ensures free { IfOk result (λ name. NameIsFreeAt graph.now world name) }
    ensures cause { IfErr result (λ e.
        (e ≡ OutOfMemory)
        ⊎ HasNameTakenAt graph.now world suffix.now (option_map string_bytes out) e) }
{
    let current = graph.worlds.at(world.index());
    let home = graph.packages.at(home_of(current).index());
    let name = renamed(alloc, &current.name, out, suffix)?;
    if is_taken(home, world, name.as_str()) {
        return Err(name_taken(alloc, &name, home)?);
    }
    Ok(name)
}

/// A world of these lists, of which the rest is as of another.
fn with_lists(world: &World, name: Text, lists: Lists) -> Result<World, AllocError>
    ensures { IfOk result (λ new.
        new
        ≡ listed_world world.now
        (record { name = name; imports = lists.imports; exports = lists.exports })) }
{
    let (docs, stability, includes) = try_clone_three(
        &world.docs,
        &world.stability,
        &world.includes,
    )?;
    Ok(World {
        name,
        imports: lists.imports,
        exports: lists.exports,
        docs,
        stability,
        package: world.package,
        includes,
        span: world.span,
    })
}

/// The elaboration of a world over the types and interfaces of a graph.
fn elaborated(
    alloc: Global,
    graph: &Graph,
    elaborator: &mut Elaborator,
    mut world: World,
) -> ResolveResult<World>
    requires uses { elaborator.old ≡ graph_uses graph.now }
    requires acyclic { IsAcyclic (graph_uses graph.now) }
    requires listed { HasSoundEntries graph.now.types (length graph.now.interfaces) world.imports
        world.exports }
    ensures ok { IfOk result (λ new. new ≡ elaborated_world graph.now world) }
    ensures no_conflict { OnOk result
        (HasTransitiveConflict (graph_uses graph.now) world.exports → ⊥) }
    ensures cause { IfErr result (λ e. (e ≡ OutOfMemory) ⊎ IsConflictError graph.now world e) }
    ensures same { elaborator.new ≡ elaborator.old }
{
    let lists = elaborator.lists_for(alloc, graph, &world)?;
    world.imports = lists.imports;
    world.exports = lists.exports;
    Ok(world)
}

/// Puts a world in the place of another of its package, and last in the table there. Where there is no
/// memory the graph is as before.
fn put(alloc: Global, graph: &mut Graph, world: WorldId, new: World) -> Result<(), AllocError>
    requires home { SomeAt graph.old.worlds world (λ current. current.package ≡ new.package) }
    requires tables { HasTables graph.old.packages graph.old.interfaces graph.old.worlds }
    requires free { NameIsFreeAt graph.old world new.name }
    ensures ok { OnOk result (graph.new ≡ with_world graph.old world new) }
    ensures unchanged { OnErr result (graph.new ≡ graph.old) }
{
    let current = graph.worlds.at(world.index());
    let home = graph.packages.at_mut(home_of(&new).index());
    rename_last(alloc, home, world, current.name.as_str(), new.name.as_str())?;
    graph.worlds.set(world.index(), new);
    Ok(())
}

/// Turns a world, whose new name is free and whose lists are in order. Refused for a conflict of the
/// exports (4).
fn transform(
    alloc: Global,
    graph: &mut Graph,
    elaborator: &mut Elaborator,
    world: WorldId,
    name: Text,
    lists: Lists,
) -> ResolveResult<()>
    requires uses { elaborator.old ≡ graph_uses graph.old }
    requires world { world < length graph.old.worlds }
    requires tables { HasTables graph.old.packages graph.old.interfaces graph.old.worlds }
    requires acyclic { IsAcyclic (graph_uses graph.old) }
    requires listed { HasSoundEntries graph.old.types (length graph.old.interfaces) lists.imports
        lists.exports }
    requires free { NameIsFreeAt graph.old world name }
    ensures ok { OnOk result (graph.new
        ≡ transformed graph.old world
        (λ _. record { name = name; imports = lists.imports; exports = lists.exports })) }
    ensures no_conflict { OnOk result
        (HasTransitiveConflict (graph_uses graph.old) lists.exports → ⊥) }
    ensures unchanged { OnErr result (graph.new ≡ graph.old) }
    ensures cause { IfErr result
        (λ e. (e ≡ OutOfMemory) ⊎ ExportsAreInConflict graph.old world lists.exports e) }
    ensures same { elaborator.new ≡ elaborator.old }
{
    let listed = with_lists(graph.worlds.at(world.index()), name, lists)?;
    let transformed = elaborated(alloc, graph, elaborator, listed)?;
    put(alloc, graph, world, transformed)?;
    Ok(())
}

/// What elaborates worlds of a graph. It goes over all types of the graph.
fn elaborator_of(alloc: Global, graph: &Graph) -> Result<Elaborator, AllocError>
    ensures { IfOk result (λ elaborator. elaborator ≡ graph_uses graph.now) }
{
    Elaborator::new(alloc, graph.types.as_slice(), graph.interfaces.as_slice())
}

/// Turns the exports of a world of a valid graph into its imports. Of the former imports only types stay; the former
/// exports stand behind them, and the world is elaborated. It becomes the last world of its package, under the given
/// name, or under its own with `-importized` behind it. The graph stays valid.
///
/// Refused if an export has the label of a type import (19), if another world of the package has the new name (20), and
/// for memory (28). A refusal leaves the graph as it was.
///
/// Source: `importize` of wit-parser 0.263.0.
pub fn importize(
    alloc: Global,
    graph: &mut Graph,
    world: WorldId,
    out: Option<String>,
) -> ResolveResult<()>
    requires valid { IsValid graph.old }
    requires world { world < length graph.old.worlds }
    ensures ok { OnOk result
        (graph.new ≡ transformed graph.old world (importized (option_map string_bytes out))) }
    ensures valid { IsValid graph.new }
    ensures unchanged { OnErr result (graph.new ≡ graph.old) }
    ensures cause { IfErr result (λ e.
        (e ≡ OutOfMemory) ⊎ IsImportizeCause graph.old world (option_map string_bytes out) e) }
    ensures refuses { (e : ResolveErrorKind)
        → IsImportizeCause graph.old world (option_map string_bytes out) e → OnOk result ⊥ }
{
    let mut elaborator = elaborator_of(alloc, graph)?;
    importize_with(alloc, graph, &mut elaborator, world, out)
}

/// As `importize`, with an elaborator of the graph, which stays one of it. So it costs as much as the world has and
/// reaches.
///
/// Source: `importize` of wit-parser 0.263.0.
pub fn importize_with(
    alloc: Global,
    graph: &mut Graph,
    elaborator: &mut Elaborator,
    world: WorldId,
    out: Option<String>,
) -> ResolveResult<()>
    requires valid { IsValid graph.old }
    requires uses { elaborator.old ≡ graph_uses graph.old }
    requires world { world < length graph.old.worlds }
    ensures ok { OnOk result
        (graph.new ≡ transformed graph.old world (importized (option_map string_bytes out))) }
    ensures valid { IsValid graph.new }
    ensures unchanged { OnErr result (graph.new ≡ graph.old) }
    ensures cause { IfErr result (λ e.
        (e ≡ OutOfMemory) ⊎ IsImportizeCause graph.old world (option_map string_bytes out) e) }
    ensures refuses { (e : ResolveErrorKind)
        → IsImportizeCause graph.old world (option_map string_bytes out) e → OnOk result ⊥ }
    ensures same { elaborator.new ≡ elaborator.old }
{
    importized_stay_valid();
    let name = free_name(alloc, graph, world, out, "-importized")?;
    let lists = importized_lists(alloc, graph.worlds.at(world.index()))?;
    transform(alloc, graph, elaborator, world, name, lists)?;
    Ok(())
}

/// What a filter answers of an import.
fn answer<F: Fn(&WorldKey, &WorldItem) -> bool>(
    filter: &F,
    key: &WorldKey,
    item: &WorldItem,
) -> bool
    requires { F.IsAlwaysCallable filter.now }
    ensures { MayGive F.Fn filter.now (key.now, item.now) result }
{
    filter(key, item)
}

/// The same, and true without a filter.
fn answer_of<F: Fn(&WorldKey, &WorldItem) -> bool>(
    filter: &Option<F>,
    key: &WorldKey,
    item: &WorldItem,
) -> bool
    requires { IfSome filter.now (λ f. F.IsAlwaysCallable f) }
    ensures { MayAnswer F.Fn filter.now (key.now, item.now) result }
{
    match filter {
        Some(filter) => answer(filter, key, item),
        None => true,
    }
}

/// What a filter answers of each import, in order; true without a filter.
fn answers_of<F: Fn(&WorldKey, &WorldItem) -> bool>(
    alloc: Global,
    imports: &Table<WorldKey, WorldItem>,
    filter: &Option<F>,
) -> Result<Items<bool>, AllocError>
    requires { IfSome filter.now (λ f. F.IsAlwaysCallable f) }
    ensures { IfOk result (AreAnswers F.Fn filter.now imports.now) }
{
    let mut answers = Items::new(alloc);
    for (key, item) in imports.iter() {
        answers.push(answer_of(filter, key, item))?;
    }
    Ok(answers)
}

/// As `exportize_with`, with the answers of a filter: one for each import, in order. The refusals are those
/// of `exportize`; the graph is as before then.
///
/// Source: `exportize` of wit-parser 0.263.0.
pub fn exportize_answered_with(
    alloc: Global,
    graph: &mut Graph,
    elaborator: &mut Elaborator,
    world: WorldId,
    out: Option<String>,
    answers: &Items<bool>,
) -> ResolveResult<()>
    requires valid { IsValid graph.old }
    requires uses { elaborator.old ≡ graph_uses graph.old }
    requires world { world < length graph.old.worlds }
    requires answers { length answers.now ≡ length (imports_at graph.old world) }
    ensures ok { OnOk result (graph.new
        ≡ transformed graph.old world (exportized answers.now (option_map string_bytes out))) }
    ensures valid { IsValid graph.new }
    ensures unchanged { OnErr result (graph.new ≡ graph.old) }
    ensures cause { IfErr result (λ e.
        (e ≡ OutOfMemory)
        ⊎ IsExportizeCause graph.old world answers.now (option_map string_bytes out) e) }
    ensures refuses { (e : ResolveErrorKind)
        → IsExportizeCause graph.old world answers.now (option_map string_bytes out) e
        → OnOk result ⊥ }
    ensures same { elaborator.new ≡ elaborator.old }
{
    exportized_stay_valid();
    let name = free_name(alloc, graph, world, out, "-exportized")?;
    let lists = exportized_lists(alloc, graph.worlds.at(world.index()), answers)?;
    transform(alloc, graph, elaborator, world, name, lists)?;
    Ok(())
}

/// Turns imports of a world of a valid graph into its exports: those for which the filter answers true, or all without
/// a filter. The former exports go, and the world is elaborated. The filter can always be called; it is asked once for
/// each import, in order. The world becomes the last of its package, under the given name, or under its own with
/// `-exportized` behind it. The graph stays valid.
///
/// Refused if the exports are in conflict (4), if another world of the package has the new name (20), if a type would
/// be exported (21), and for memory (28). A refusal leaves the graph as it was.
///
/// Source: `exportize` of wit-parser 0.263.0.
pub fn exportize<F: Fn(&WorldKey, &WorldItem) -> bool + Drop>(
    alloc: Global,
    graph: &mut Graph,
    world: WorldId,
    out: Option<String>,
    filter: Option<F>,
) -> ResolveResult<()>
    requires valid { IsValid graph.old }
    requires world { world < length graph.old.worlds }
    requires filter { IfSome filter (λ f. F.IsAlwaysCallable f) }
    ensures ok { OnOk result
        (Exportizes F.Fn filter graph.old world (option_map string_bytes out) graph.new) }
    ensures valid { IsValid graph.new }
    ensures unchanged { OnErr result (graph.new ≡ graph.old) }
    ensures cause { IfErr result (λ e.
        (e ≡ OutOfMemory)
        ⊎ RefusesExportize F.Fn filter graph.old world (option_map string_bytes out) e) }
    ensures refuses { ((answers : List Bool)
        → AreAnswers F.Fn filter (imports_at graph.old world) answers
        → (e : ResolveErrorKind)
        × IsExportizeCause graph.old world answers (option_map string_bytes out) e)
        → OnOk result ⊥ }
{
    let mut elaborator = elaborator_of(alloc, graph)?;
    exportize_with(alloc, graph, &mut elaborator, world, out, filter)
}

/// As `exportize`, with an elaborator of the graph, which stays one of it. So it costs as much as the world has and
/// reaches.
///
/// Source: `exportize` of wit-parser 0.263.0.
pub fn exportize_with<F: Fn(&WorldKey, &WorldItem) -> bool + Drop>(
    alloc: Global,
    graph: &mut Graph,
    elaborator: &mut Elaborator,
    world: WorldId,
    out: Option<String>,
    filter: Option<F>,
) -> ResolveResult<()>
    requires valid { IsValid graph.old }
    requires uses { elaborator.old ≡ graph_uses graph.old }
    requires world { world < length graph.old.worlds }
    requires filter { IfSome filter (λ f. F.IsAlwaysCallable f) }
    ensures ok { OnOk result
        (Exportizes F.Fn filter graph.old world (option_map string_bytes out) graph.new) }
    ensures valid { IsValid graph.new }
    ensures unchanged { OnErr result (graph.new ≡ graph.old) }
    ensures cause { IfErr result (λ e.
        (e ≡ OutOfMemory)
        ⊎ RefusesExportize F.Fn filter graph.old world (option_map string_bytes out) e) }
    ensures refuses { ((answers : List Bool)
        → AreAnswers F.Fn filter (imports_at graph.old world) answers
        → (e : ResolveErrorKind)
        × IsExportizeCause graph.old world answers (option_map string_bytes out) e)
        → OnOk result ⊥ }
    ensures same { elaborator.new ≡ elaborator.old }
{
    let answers = answers_of(alloc, &graph.worlds.at(world.index()).imports, &filter)?;
    drop(filter);
    exportize_answered_with(alloc, graph, elaborator, world, out, &answers)?;
    Ok(())
}
