//! From a script to the graph that its commands make.
ghost use Rattle.std.specs.Prelude.{◌∷◌, IfSome};
ghost use Rattle.std.specs.List.{AllByRecursion};
ghost use Rattle.wit_data.specs.Shape.{IsGroupShaped};
ghost use Rattle.wit_resolve_graph.specs.Step.{IsCommandShaped};
ghost use Rattle.wit_script.specs.Ready.{IsReady};

use std::alloc::Global;
use wit_resolve_graph::{
    Command, Items, Reply, Resolve, UnresolvedPackageGroup, carry_out, command_of,
};
use wit_script::{Change, ReadyCommand, Request, read_script};

/// The commands of a script; none where it isn't understood.
pub fn commands_of(alloc: Global, script: &str) -> Option<Vec<ReadyCommand>> {
    Some(read_script(alloc, script).ok()?.into_vec())
}

/// What all these commands make of an empty graph, and the reply to the last one.
pub fn built(alloc: Global, commands: Vec<ReadyCommand>) -> Option<(Resolve, Option<Reply>)> {
    let mut resolve = Resolve::new(alloc);
    let mut last = None;
    for ready in commands {
        last = reply_to(alloc, &mut resolve, ready.into_request());
    }
    Some((resolve, last))
}

/// What all commands of a script but the last make, and that one.
pub fn before_last(alloc: Global, script: &str) -> Option<(Resolve, Request)>
    ensures { IfSome result (λ made. IsReady made.1) }
{
    let mut commands = commands_of(alloc, script)?;
    let last = commands.pop()?.into_request();
    let (resolve, _) = built(alloc, commands)?;
    Some((resolve, last))
}

/// The reply to a command, where it changes the graph.
fn reply_to(alloc: Global, resolve: &mut Resolve, request: Request) -> Option<Reply>
    requires { IsReady request }
{
    Some(carry_out(alloc, resolve, asked(request)?))
}

/// The command of `Resolve` that a command of a script asks, where it changes the graph.
pub fn asked(request: Request) -> Option<Command>
    requires { IsReady request }
    ensures { IfSome result (λ command. IsCommandShaped command) }
{
    match request {
        Request::Change(change) => Some(command_of(change)),
        _ => None,
    }
}

/// The groups of a push, where the command is one.
pub fn pushed(request: Request) -> Option<(UnresolvedPackageGroup, Items<UnresolvedPackageGroup>)>
    requires { IsReady request }
    ensures { IfSome result (λ groups. AllByRecursion IsGroupShaped (groups.0 ∷ groups.1)) }
{
    match request {
        Request::Change(Change::PushGroups { main, deps }) => Some((main, deps)),
        _ => None,
    }
}
