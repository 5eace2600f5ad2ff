//! Calls that change a `Resolve`, each on a copy of it.
ghost use Rattle.std.specs.Prelude.{◌<◌, length};
ghost use Rattle.wit_resolve_graph.specs.Step.{IsCommandShaped};

use crate::marks::{call, copy_of, tell, tell_refusal};
use crate::sources::one_file;
use crate::states::{incoming, state, tell_state};
use std::alloc::Global;
use wit_resolve_graph::{
    Command, Remap, Reply, Resolve, ResolveResult, WorldId, WorldItem, WorldKey, run,
};

/// Changes that need no world.
pub fn change(rt: &impl Print, alloc: Global, resolve: &Resolve) -> Option<()> {
    add_feature(rt, alloc, resolve)?;
    push_source_map(rt, alloc, resolve)?;
    of_graph(rt, alloc, resolve)
}

/// A `Resolve` of the graph with what stands beside it.
fn of_graph(rt: &impl Print, alloc: Global, resolve: &Resolve) -> Option<()> {
    let graph = copy_of(resolve.graph())?;
    let features = copy_of(resolve.features())?;
    let map = copy_of(resolve.source_map())?;
    call(rt, "of_graph");
    match Resolve::of_graph(alloc, graph, features, map, resolve.track_rule()) {
        Ok(made) => tell_made_of(rt, &made?),
        Err(refusal) => {
            tell_refusal(rt, &refusal)?;
            state(rt, resolve)
        }
    }
}

/// What was made of the graph is as what it was made of.
fn tell_made_of(rt: &impl Print, made: &Resolve) -> Option<()> {
    tell(rt, Ok("a Resolve"))?;
    state(rt, made)
}

fn add_feature(rt: &impl Print, alloc: Global, resolve: &Resolve) -> Option<()> {
    let mut copy = copy_of(resolve)?;
    call(rt, "add_feature");
    let answer = copy.add_feature(alloc, "f");
    tell_state(rt, answer, &copy)
}

fn push_source_map(rt: &impl Print, alloc: Global, resolve: &Resolve) -> Option<()> {
    let mut copy = copy_of(resolve)?;
    let map = one_file(alloc)?;
    call(rt, "push_source_map");
    let answer = copy.push_source_map(alloc, map);
    tell_state(rt, answer, &copy)
}

// ---- worlds

/// Changes of the world of this index.
pub fn change_world(rt: &impl Print, alloc: Global, resolve: &Resolve, world: usize) -> Option<()>
    requires { world < length resolve.now.graph.worlds }
{
    importize(rt, alloc, resolve, world, None)?;
    importize(rt, alloc, resolve, world, Some("out"))?;
    exportize(rt, alloc, resolve, world)?;
    exportize_filtered(rt, alloc, resolve, world)?;
    semver(rt, alloc, resolve, world)
}

/// A text, where there is one.
fn string(alloc: Global, text: Option<&str>) -> Option<Option<String>> {
    match text {
        Some(text) => Some(Some(String::from_str(alloc, text).ok()?)),
        None => Some(None),
    }
}

fn importize(
    rt: &impl Print,
    alloc: Global,
    resolve: &Resolve,
    world: usize,
    out: Option<&str>,
) -> Option<()>
    requires { world < length resolve.now.graph.worlds }
{
    let mut copy = copy_of(resolve)?;
    let out = string(alloc, out)?;
    call(rt, "importize");
    let answer = copy.importize(alloc, WorldId::from_index(world), out);
    tell_state(rt, answer, &copy)
}

/// Of all imports.
fn exportize(rt: &impl Print, alloc: Global, resolve: &Resolve, world: usize) -> Option<()>
    requires { world < length resolve.now.graph.worlds }
{
    let mut copy = copy_of(resolve)?;
    let filter = Some(|_key: &WorldKey, _item: &WorldItem| true);
    call(rt, "exportize");
    let answer = copy.exportize(alloc, WorldId::from_index(world), None, filter);
    tell_state(rt, answer, &copy)
}

/// Of those under a label.
fn exportize_filtered(rt: &impl Print, alloc: Global, resolve: &Resolve, world: usize) -> Option<()>
    requires { world < length resolve.now.graph.worlds }
{
    let mut copy = copy_of(resolve)?;
    let out = string(alloc, Some("out"))?;
    let filter = Some(|key: &WorldKey, _item: &WorldItem| matches!(key, WorldKey::Name(_)));
    call(rt, "exportize of labels");
    let answer = copy.exportize(alloc, WorldId::from_index(world), out, filter);
    tell_state(rt, answer, &copy)
}

fn semver(rt: &impl Print, alloc: Global, resolve: &Resolve, world: usize) -> Option<()>
    requires { world < length resolve.now.graph.worlds }
{
    let mut copy = copy_of(resolve)?;
    call(rt, "merge_world_imports_based_on_semver");
    let answer = copy.merge_world_imports_based_on_semver(alloc, WorldId::from_index(world));
    tell_state(rt, answer, &copy)
}

// ---- merging

pub fn merge(rt: &impl Print, alloc: Global, resolve: &Resolve, other: &Resolve) -> Option<()> {
    let mut copy = copy_of(resolve)?;
    let other = copy_of(other)?;
    incoming(rt, other.source_map())?;
    call(rt, "merge");
    let answer = types_of(copy.merge(alloc, other));
    tell_state(rt, answer, &copy)
}

/// How many types there are in the answer of a merge.
pub fn types_of(answer: ResolveResult<Remap>) -> ResolveResult<usize> {
    match answer {
        Ok(remap) => Ok(remap.types().len()),
        Err(refusal) => Err(refusal),
    }
}

/// A merge as a command.
pub fn run_merge(rt: &impl Print, alloc: Global, resolve: &Resolve, other: &Resolve) -> Option<()> {
    let other = copy_of(other)?;
    run_command(rt, alloc, resolve, Command::Merge(other))
}

// ---- commands

/// A command, and one after it that takes no memory.
pub fn run_command(
    rt: &impl Print,
    alloc: Global,
    resolve: &Resolve,
    command: Command,
) -> Option<()>
    requires { IsCommandShaped command }
{
    let mut copy = copy_of(resolve)?;
    let commands = vec![in alloc; command, Command::SetAllFeatures(true)].ok()?;
    call(rt, "run");
    let answer = run(alloc, &mut copy, commands);
    tell_replies(rt, &answer)?;
    state(rt, &copy)
}

fn tell_replies(rt: &impl Print, answer: &ResolveResult<Vec<Reply>>) -> Option<()> {
    match answer {
        Ok(replies) => {
            for reply in replies {
                tell_reply(rt, reply)?;
            }
            Some(())
        }
        Err(refusal) => tell_refusal(rt, refusal),
    }
}

fn tell_reply(rt: &impl Print, reply: &Reply) -> Option<()> {
    match reply {
        Reply::Done => println!(rt; "answer done").ok(),
        Reply::Pushed(id) => println!(rt; "answer {id:?}").ok(),
        Reply::Merged(remap) => {
            let types = remap.types().len();
            println!(rt; "answer {types}").ok()
        }
        Reply::NoWorld => println!(rt; "answer no world").ok(),
        Reply::Refused(refusal) => tell_refusal(rt, refusal),
    }
}
