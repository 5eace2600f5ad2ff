//! Makes each call that takes memory, and each that takes none, on the graphs of worked scripts, and tells what each
//! answers and what there is after it. `check/sweep.py` refuses a request for memory in each of many runs of it, and
//! judges what is told then.
//!
//! A case of standard input is a line `=== NAME` and a script below it. The last command is run on what the others make.
//! Where it pushes, each other way to add its packages is taken, too; what all commands make is asked and changed. Where
//! the script has a line `other`, the graphs of what stands before it and behind it are merged. The case without a script
//! makes the calls that need no graph.
#![tactic(auto)]

ghost use Rattle.std.specs.Prelude.{◌<◌, ◌∷◌, length};
ghost use Rattle.std.specs.List.{AllByRecursion};
ghost use Rattle.wit_data.specs.Shape.{IsGroupShaped};

mod adding;
mod changing;
mod copies;
mod errors;
mod layers;
mod marks;
mod memoryless;
mod questions;
mod rows;
mod scripts;
mod sources;
mod states;
mod sums;
mod values;

use crate::adding::{add_group, push_groups};
use crate::changing::{change, change_world, merge, run_command, run_merge};
use crate::copies::{copy_graph, copy_group};
use crate::errors::{ask_error, make_error, map_ids};
use crate::layers::{link, transform, unite_graphs};
use crate::marks::{call, tell};
use crate::memoryless::{
    new_types, new_worlds, read_interface, read_package, read_type, read_values, read_whole,
};
use crate::questions::{
    ask_function, ask_interface, ask_package, ask_whole, ask_world, name_resource,
};
use crate::rows::{close, join_rows};
use crate::scripts::{asked, before_last, built, commands_of, pushed};
use crate::sources::make_sources;
use crate::states::{base, incoming, incoming_groups};
use crate::values::make_values;
use std::alloc::Global;
use std::io;
use std::process::ExitCode;
use wit_resolve_graph::{
    Command, Items, Reply, Resolve, ResolveError, SourceFault, UnresolvedPackageGroup,
};

// ---- the last command of a script

/// By `run`.
fn run_last(rt: &impl Print, alloc: Global, script: &str) -> Option<()> {
    let (resolve, last) = before_last(alloc, script)?;
    base(rt, &resolve)?;
    let command = asked(last)?;
    if let Command::PushGroups { main, deps } = &command {
        incoming_groups(rt, main, deps)?;
    }
    run_command(rt, alloc, &resolve, command)
}

/// By each call that adds packages, where it does.
fn add_last(rt: &impl Print, alloc: Global, script: &str) -> Option<()> {
    let (resolve, last) = before_last(alloc, script)?;
    base(rt, &resolve)?;
    match pushed(last) {
        Some((main, deps)) => add(rt, alloc, &resolve, &main, &deps),
        None => Some(()),
    }
}

fn add(
    rt: &impl Print,
    alloc: Global,
    resolve: &Resolve,
    main: &UnresolvedPackageGroup,
    deps: &Items<UnresolvedPackageGroup>,
) -> Option<()>
    requires { AllByRecursion IsGroupShaped (main.now ∷ deps.now) }
{
    incoming_groups(rt, main, deps)?;
    push_groups(rt, alloc, resolve, main, deps)?;
    add_group(rt, alloc, resolve, main)?;
    link(rt, alloc, resolve.graph(), resolve.features(), &main.main)?;
    copy_group(rt, main)
}

// ---- what all commands of a script make

fn ask(rt: &impl Print, alloc: Global, script: &str) -> Option<()> {
    let (mut resolve, reply) = built(alloc, commands_of(alloc, script)?)?;
    base(rt, &resolve)?;
    if let Some(Reply::Refused(refusal)) = reply {
        return ask_refusal(rt, alloc, &resolve, refusal);
    }
    ask_graph(rt, alloc, &resolve)?;
    read_whole(rt, &mut resolve)?;
    add_last(rt, alloc, script)
}

/// Why the last command is refused.
fn ask_refusal(
    rt: &impl Print,
    alloc: Global,
    resolve: &Resolve,
    refusal: ResolveError,
) -> Option<()> {
    ask_error(rt, alloc, &refusal, resolve.source_map())?;
    let fault = SourceFault::Resolve(refusal);
    call(rt, "render_error");
    tell(rt, resolve.render_error(alloc, &fault))
}

fn ask_graph(rt: &impl Print, alloc: Global, resolve: &Resolve) -> Option<()> {
    ask_whole(rt, alloc, resolve)?;
    copy_graph(rt, resolve.graph())?;
    close(rt, alloc, resolve.graph())?;
    change(rt, alloc, resolve)?;
    for index in 0..resolve.types().len() {
        read_type(rt, resolve, index)?;
    }
    if let Some(last) = resolve.packages().len().checked_sub(1) {
        ask_package(rt, alloc, resolve, last)?;
        read_package(rt, resolve, last)?;
    }
    if let Some(last) = resolve.interfaces().len().checked_sub(1) {
        ask_interface(rt, alloc, resolve, last)?;
        read_interface(rt, resolve, last)?;
        ask_functions(rt, alloc, resolve, last)?;
    }
    match resolve.worlds().len().checked_sub(1) {
        Some(last) => ask_last_world(rt, alloc, resolve, last),
        None => Some(()),
    }
}

fn ask_last_world(rt: &impl Print, alloc: Global, resolve: &Resolve, index: usize) -> Option<()>
    requires { index < length resolve.now.graph.worlds }
{
    ask_world(rt, alloc, resolve, index)?;
    change_world(rt, alloc, resolve, index)?;
    transform(rt, alloc, resolve.graph(), index)
}

/// The functions of an interface, and its types where core wasm has a name for what drops them.
fn ask_functions(rt: &impl Print, alloc: Global, resolve: &Resolve, index: usize) -> Option<()>
    requires { index < length resolve.now.graph.interfaces }
{
    for (_, function) in resolve.interfaces()[index].functions.iter() {
        ask_function(rt, alloc, resolve, function)?;
    }
    for (_, id) in resolve.interfaces()[index].types.iter() {
        name_resource(rt, alloc, resolve, index, id.index())?;
    }
    Some(())
}

// ---- the graphs of two scripts

fn merge_two(rt: &impl Print, alloc: Global, one: &str, other: &str) -> Option<()> {
    let (one, _) = built(alloc, commands_of(alloc, one)?)?;
    let (other, _) = built(alloc, commands_of(alloc, other)?)?;
    base(rt, &one)?;
    merge_each(rt, alloc, &one, &other)
}

fn merge_each(rt: &impl Print, alloc: Global, one: &Resolve, other: &Resolve) -> Option<()> {
    merge(rt, alloc, one, other)?;
    incoming(rt, other.source_map())?;
    run_merge(rt, alloc, one, other)?;
    unite_graphs(rt, alloc, one.graph(), other.graph())
}

// ---- all of them

fn make_all(rt: &impl Print, alloc: Global) -> Option<()> {
    read_values(rt, alloc)?;
    new_types(rt, alloc)?;
    new_worlds(rt, alloc)?;
    join_rows(rt)?;
    make_values(rt, alloc)?;
    make_sources(rt, alloc)?;
    make_error(rt, alloc)?;
    map_ids(rt, alloc)
}

fn make_case(rt: &impl Print, alloc: Global, script: &str) -> Option<()> {
    if script.is_empty() {
        return make_all(rt, alloc);
    }
    if let Some((one, other)) = script.split_once("other\n") {
        return merge_two(rt, alloc, one, other);
    }
    run_last(rt, alloc, script)?;
    ask(rt, alloc, script)
}

/// Status 0 where each case was made.
fn main(rt: HostRuntime) -> ExitCode {
    let Ok(text) = io::read_to_string(rt.alloc(), rt.reader()) else {
        return ExitCode::FAILURE;
    };
    for case in text.as_str().split("=== ").skip(1) {
        let Some((name, script)) = case.split_once('\n') else {
            return ExitCode::FAILURE;
        };
        if println!(rt; "=== {name}").is_err() || make_case(&rt, rt.alloc(), script).is_none() {
            return ExitCode::FAILURE;
        }
    }
    ExitCode::SUCCESS
}
