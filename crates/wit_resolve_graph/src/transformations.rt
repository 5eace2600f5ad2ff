//! The commands that change a world.
ghost use Rattle.std.specs.Prelude.{◌≡◌, ◌⊎◌, ◌<◌, IfErr, IfOk, OnErr, OnOk, length, string_bytes};
ghost use Rattle.std.specs.Option.{option_map};
ghost use Rattle.wit_graph_data.specs.declared.error_kind.ResolveErrorKind.{ResolveErrorKind};
ghost use Rattle.wit_graph_data.specs.declared.error_kind.ResolveErrorKind.TheVariants.{OutOfMemory};
ghost use Rattle.wit_resolve_graph.specs.Step.{Step, answers_at};
ghost use Rattle.wit_resolve_graph.specs.declared.command.Command.TheVariants as command;
ghost use Rattle.wit_transform.specs.Transformed.{IsExportizeCause, exportized, transformed};
ghost use Rattle.wit_resolve_graph.specs.steps.Parts.{HaveSameTexts, ListAlike, is_listed_key, listed_answers};

use crate::command::Reply;
use crate::resolve::Resolve;
use std::alloc::{AllocError, Global};
use wit_data::{Items, PackageName, Table, Text, WorldId, WorldItem, WorldKey};
use wit_graph_data::{Graph, ResolveResult};
use wit_values::NameSet;

/// The text of a name, where there is one.
fn out_name(out: Option<Text>) -> Option<String>
    ensures { option_map string_bytes result ≡ out }
{
    match out {
        Some(name) => Some(name.into_string()),
        None => None,
    }
}

/// The reply to `Importize`.
pub(crate) fn importize(
    alloc: Global,
    resolve: &mut Resolve,
    package: PackageName,
    world: Text,
    out: Option<Text>,
) -> Reply
    ensures { Step resolve.old (command.Importize «package» world out) result resolve.new }
{
    match resolve.world_named(&package, world.as_str()) {
        Some(id) => match resolve.importize(alloc, id, out_name(out)) {
            Ok(()) => Reply::Done,
            Err(refusal) => Reply::Refused(refusal),
        },
        None => Reply::NoWorld,
    }
}

/// The texts of a list, each once, to look them up: in the list each look-up would cost its length.
fn set_of(alloc: Global, texts: &Items<Text>) -> Result<NameSet, AllocError>
    ensures { IfOk result (λ set. HaveSameTexts set texts.now) }
{
    let mut set = NameSet::new(alloc);
    for text in texts.as_slice() {
        set.insert(alloc, text.as_str())?;
    }
    Ok(set)
}

/// The listed keys to look up; none without a list.
fn listed_keys(alloc: Global, keys: &Option<Items<Text>>) -> Result<Option<NameSet>, AllocError>
    ensures { IfOk result (λ listed. ListAlike listed keys.now) }
{
    match keys {
        Some(keys) => Ok(Some(set_of(alloc, keys)?)),
        None => Ok(None),
    }
}

/// Whether what names a key is listed; true without a list.
fn is_listed(
    alloc: Global,
    graph: &Graph,
    keys: &Option<NameSet>,
    key: &WorldKey,
) -> ResolveResult<bool>
    ensures ok { IfOk result (λ listed. listed ≡ is_listed_key graph.now keys.now key.now) }
    ensures memory { IfErr result (λ kind. kind ≡ OutOfMemory) }
{
    match keys {
        Some(keys) => {
            let name = graph.name_world_key(alloc, key)?;
            Ok(keys.contains(name.as_str()))
        }
        None => Ok(true),
    }
}

/// For each import whether what names its key is listed.
fn key_answers(
    alloc: Global,
    graph: &Graph,
    imports: &Table<WorldKey, WorldItem>,
    keys: &Option<NameSet>,
) -> ResolveResult<Items<bool>>
    ensures ok { IfOk result (λ answers. answers ≡ listed_answers graph.now keys.now imports.now) }
    ensures memory { IfErr result (λ kind. kind ≡ OutOfMemory) }
{
    let mut answers = Items::new(alloc);
    for (key, _) in imports.iter() {
        answers.push(is_listed(alloc, graph, keys, key)?)?;
    }
    Ok(answers)
}

/// The answers for the imports of a world.
fn world_answers(
    alloc: Global,
    resolve: &Resolve,
    world: WorldId,
    keys: &Option<Items<Text>>,
) -> ResolveResult<Items<bool>>
    requires { world < length resolve.now.graph.worlds }
    ensures ok { IfOk result (λ answers. answers ≡ answers_at resolve.now keys.now world) }
    ensures memory { IfErr result (λ kind. kind ≡ OutOfMemory) }
{
    let listed = listed_keys(alloc, keys)?;
    let graph = resolve.graph();
    let current = graph.worlds.at(world.index());
    key_answers(alloc, graph, &current.imports, &listed)
}

/// Exports the imports of a world that are listed.
fn exportize_listed(
    alloc: Global,
    resolve: &mut Resolve,
    world: WorldId,
    out: Option<Text>,
    keys: Option<Items<Text>>,
) -> ResolveResult<()>
    requires { world < length resolve.old.graph.worlds }
    ensures ok { OnOk result (resolve.new
        ≡ record resolve.old {
          graph = transformed resolve.old.graph world
              (exportized (answers_at resolve.old keys world) out);
        }) }
    ensures unchanged { OnErr result (resolve.new ≡ resolve.old) }
    ensures cause { IfErr result (λ kind.
        (kind ≡ OutOfMemory)
        ⊎ IsExportizeCause resolve.old.graph world (answers_at resolve.old keys world) out
        kind) }
    ensures refuses { (kind : ResolveErrorKind)
        → IsExportizeCause resolve.old.graph world (answers_at resolve.old keys world) out kind
        → OnOk result ⊥ }
{
    let answers = world_answers(alloc, resolve, world, &keys)?;
    drop(keys);
    resolve.exportize_answered(alloc, world, out_name(out), &answers)?;
    Ok(())
}

/// The reply to `Exportize`.
pub(crate) fn exportize(
    alloc: Global,
    resolve: &mut Resolve,
    package: PackageName,
    world: Text,
    out: Option<Text>,
    keys: Option<Items<Text>>,
) -> Reply
    ensures { Step resolve.old (command.Exportize «package» world out keys) result resolve.new }
{
    match resolve.world_named(&package, world.as_str()) {
        Some(id) => match exportize_listed(alloc, resolve, id, out, keys) {
            Ok(()) => Reply::Done,
            Err(refusal) => Reply::Refused(refusal),
        },
        None => Reply::NoWorld,
    }
}

/// The reply to `Semver`.
pub(crate) fn merge_world_imports(
    alloc: Global,
    resolve: &mut Resolve,
    package: PackageName,
    world: Text,
) -> Reply
    ensures { Step resolve.old (command.Semver «package» world) result resolve.new }
{
    match resolve.world_named(&package, world.as_str()) {
        Some(id) => match resolve.merge_world_imports_based_on_semver(alloc, id) {
            Ok(()) => Reply::Done,
            Err(refusal) => Reply::Refused(refusal),
        },
        None => Reply::NoWorld,
    }
}
