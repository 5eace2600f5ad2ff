//! Changes carried out.
ghost use Rattle.std.specs.Prelude.{◌≡◌, IfOk};
ghost use Rattle.wit_json_commands.specs.Runs.{CarriesOut, CarriesOutCommand, AnswersReply};
ghost use Rattle.wit_resolve_graph.specs.Step.{IsCommandShaped};

use super::shapes::find_unshaped;
use super::targets::Target;
use crate::replies::{Answer, refused};
use std::alloc::Global;
use wit_commands::Change;
use wit_resolve_graph::{Command, Reply, Resolve, ResolveResult, carry_out, command_of};
use wit_ways::{Asked, way_of};

/// Carries out a change, and answers it. The only refusal is want of memory outside the command (28).
pub fn answer_change(alloc: Global, resolve: &mut Resolve, change: Change) -> ResolveResult<Answer>
    ensures { IfOk result (λ answer. CarriesOut resolve.old change answer resolve.new) }
{
    match find_unshaped(alloc, &change)? {
        Some(unshaped) => Ok(Answer::NotShaped(unshaped)),
        None => {
            let asked = format!(in alloc; "{change}")?;
            answer_command(alloc, resolve, command_of(change), &asked)
        }
    }
}

/// Carries out a command, which in words is `asked`, and answers its reply.
pub fn answer_command(
    alloc: Global,
    resolve: &mut Resolve,
    command: Command,
    asked: &str,
) -> ResolveResult<Answer>
    requires { IsCommandShaped command }
    ensures { IfOk result
        (λ answer. CarriesOutCommand asked.now resolve.old command answer resolve.new) }
{
    let target = Target::of(alloc, resolve.graph(), &command)?;
    let brought = Asked::of(alloc, resolve, &command)?;
    let reply = carry_out(alloc, resolve, command);
    answer_of(alloc, resolve, asked, target, &brought, reply)
}

/// The answer that a reply is to what was asked, which in words is `asked` and whose names led to the target.
fn answer_of(
    alloc: Global,
    resolve: &Resolve,
    asked: &str,
    target: Target,
    brought: &Asked,
    reply: Reply,
) -> ResolveResult<Answer>
    ensures { IfOk result
        (λ answer. AnswersReply resolve.now asked.now target brought.now reply answer) }
{
    match reply {
        Reply::Done => Ok(target.done()),
        Reply::Pushed(id) => Ok(Answer::Pushed(id)),
        Reply::Merged(remap) => Ok(Answer::Merged(remap)),
        Reply::NoWorld => Ok(target.missing()),
        Reply::Refused(error) => {
            let (graph, files) = (resolve.graph(), resolve.source_map());
            let way = way_of(alloc, resolve, brought, error.kind())?;
            Ok(refused(alloc, graph, files, asked, way.as_slice(), error)?)
        }
    }
}
