//! The refusals of a script and what its commands don't find, each with its lines, and a script that isn't understood.
ghost use Rattle.std.specs.Prelude.{◌≡◌, ◌≢◌, [], ◌∷◌, IfErr, IfOk, Err, None, Ok, Some, false, is_some, string_bytes};
ghost use Rattle.wit_resolve_graph.specs.Step.{IsCommandShaped, command_of};
ghost use Rattle.wit_script.specs.Answer.{InTurn, IsSelection};
ghost use Rattle.wit_script.specs.steps.Ready.{CanBeAsked, CanAllBeAsked};
ghost use Rattle.wit_script_lines.specs.declared.request.Request.TheVariants as request;
ghost use Rattle.wit_ways.specs.declared.asked.Asked.TheVariants.{Other};
ghost use Rattle.wit_script_explain.specs.Desk.{new_desk};
ghost use Rattle.wit_script_explain.specs.Explained.{Explains, ExplainsCommand, ExplainsPlaced, TellsCommand, with_places};
ghost use Rattle.wit_script_explain.specs.steps.Explained.{ExplainsReply, place_of, rest_of};
ghost use Rattle.wit_script_explain.specs.Misread.{IsMisreadText};
ghost use Rattle.wit_script_explain.specs.Refusals.{TellsRefusal, TellsReply, missing_text, other_text, places_text, spans_text, unless_refused};
ghost use Rattle.wit_script_explain.specs.declared.desk.Desk.{Desk};
ghost use Rattle.wit_script_explain.specs.Shown.{span_text};

use crate::culprit::fault_index;
use crate::desk::{Desk, TrackedGraph, coming_packages};
use crate::lines::{CommandPlace, ScriptLines, script_lines};
use crate::misread::misread_text;
use crate::outcome::Outcome;
use crate::place::{defined_line, span_place};
use crate::shown::{command_text, place_text};
use crate::shown_way::way_text;
use std::alloc::{AllocError, Global};
use wit_data::Span;
use wit_resolve_graph::{
    Change, Command, Items, PackageId, PackageName, Reply, ResolveError, ResolveErrorKind,
    ResolveResult, Text, WorldId, carry_out, command_of,
};
use wit_script::{ReadFault, ReadyCommand, Request, read_script};
use wit_ways::{Asked, way_of};

/// What there is to say of a script: whether it is understood, and where it is its refusals and which commands name what
/// isn't there, each with its lines, or else the line at which it isn't. The only error is want of memory outside a command.
pub fn explain_text(alloc: Global, script: &str) -> Result<(bool, String), AllocError>
    ensures { IfOk result (λ answer. Explains script.now answer.0 (string_bytes answer.1)) }
{
    let lines = script_lines(alloc, script)?;
    match read_script(alloc, script) {
        Ok(commands) => match refusals_to(alloc, &lines, commands) {
            Ok(text) => Ok((true, text)),
            Err(_) => Err(AllocError),
        },
        Err(ReadFault::NotUnderstood { line }) => Ok((
            false,
            explain_misread(alloc, &lines, line)?,
        )),
        Err(ReadFault::OutOfMemory) => Err(AllocError),
    }
}

/// What there is to say of a script that isn't understood, where the line of this number isn't. The only error is want of
/// memory.
pub fn explain_misread(
    alloc: Global,
    script: &ScriptLines,
    number: usize,
) -> Result<String, AllocError>
    ensures { IfOk result (λ text. IsMisreadText script.now number (string_bytes text)) }
{
    let index = fault_index(alloc, script, number)?;
    misread_text(alloc, script, number, index)
}

/// The first of some commands and those after it; where there is none, one behind all lines.
pub fn next_place<'a>(
    script: &ScriptLines,
    places: &'a [CommandPlace],
) -> (CommandPlace, &'a [CommandPlace])
    ensures first { result.0 ≡ place_of script.now places.now }
    ensures rest { result.1.now ≡ rest_of places.now }
{
    match places.split_first() {
        Some((place, rest)) => (*place, rest),
        None => {
            let nowhere = CommandPlace {
                line: script.lines.len(),
                packages: script.packages.len(),
                is_push: false,
            };
            (nowhere, places)
        }
    }
}

/// The refusals of commands on an empty graph, in order, of which each can be asked after those before it. The only error is
/// want of memory outside a command.
fn refusals_to(
    alloc: Global,
    script: &ScriptLines,
    commands: Items<ReadyCommand>,
) -> ResolveResult<String>
    requires { CanAllBeAsked commands false }
    ensures { IfOk result (λ text.
        (after : Desk)
        × InTurn (ExplainsPlaced script.now) new_desk
        (with_places script.now script.now.commands commands) (string_bytes text) after) }
{
    let mut desk = Desk::new(alloc);
    let mut all = String::new(alloc);
    let mut places = script.commands.as_slice();
    for command in commands.into_vec() {
        let (place, rest) = next_place(script, places);
        let outcome = explain_command(alloc, script, &place, &mut desk, command)?;
        all.push_str(&outcome.text)?;
        places = rest;
    }
    Ok(all)
}

/// Carries out a command of a script, which stands at this place, on its graphs: `other` where there is no second one, and
/// `merge` where there is. Want of memory in the command is an outcome; elsewhere it is the only refusal.
pub fn explain_command(
    alloc: Global,
    script: &ScriptLines,
    place: &CommandPlace,
    desk: &mut Desk,
    command: ReadyCommand,
) -> ResolveResult<Outcome>
    requires { CanBeAsked command (is_some desk.old.second) }
    ensures { IfOk result (λ outcome.
        ExplainsCommand script.now place.now desk.old command outcome.reply
        (string_bytes outcome.text) desk.new) }
{
    match command.into_request() {
        Request::Change(change) => change_graph(alloc, script, place, desk, change),
        Request::Other => {
            desk.second = Some(TrackedGraph::new(alloc));
            Ok(Outcome::told(String::new(alloc)))
        }
        Request::Merge => merge(alloc, script, place, desk),
        Request::Print { package, world } => {
            let text = print(alloc, script, place, desk.working(), &package, &world)?;
            Ok(Outcome::told(text))
        }
        Request::Select { package, text } => {
            let text = select(alloc, script, place, desk.working(), &package, &text)?;
            Ok(Outcome::told(text))
        }
    }
}

/// Changes the graph on which commands work.
fn change_graph(
    alloc: Global,
    script: &ScriptLines,
    place: &CommandPlace,
    desk: &mut Desk,
    change: Change,
) -> ResolveResult<Outcome>
    requires { IsCommandShaped (command_of change) }
    ensures { IfOk result (λ outcome.
        ExplainsCommand script.now place.now desk.old (request.Change change) outcome.reply
        (string_bytes outcome.text) desk.new) }
{
    let command = command_of(change);
    let coming = coming_packages(script, place);
    match &mut desk.second {
        Some(second) => explain_reply(alloc, script, place, second, command, coming, coming),
        None => explain_reply(
            alloc,
            script,
            place,
            &mut desk.first,
            command,
            coming,
            coming,
        ),
    }
}

/// `merge`: the second graph goes into the first, and is no longer there, whether it is refused or not.
fn merge(
    alloc: Global,
    script: &ScriptLines,
    place: &CommandPlace,
    desk: &mut Desk,
) -> ResolveResult<Outcome>
    requires { desk.old.second ≢ None }
    ensures { IfOk result (λ outcome.
        ExplainsCommand script.now place.now desk.old request.Merge outcome.reply
        (string_bytes outcome.text) desk.new) }
{
    let Some(second) = desk.second.take() else {
        unreachable!()
    };
    let TrackedGraph {
        resolve,
        file_starts,
        package_starts,
    } = second;
    let command = Command::Merge(resolve);
    let (file_starts, package_starts) = (file_starts.as_slice(), package_starts.as_slice());
    explain_reply(
        alloc,
        script,
        place,
        &mut desk.first,
        command,
        file_starts,
        package_starts,
    )
}

/// Carries out a command on a graph. The files that come begin with these lines, and the packages that come with those.
fn explain_reply(
    alloc: Global,
    script: &ScriptLines,
    place: &CommandPlace,
    tracked: &mut TrackedGraph,
    command: Command,
    coming: &[usize],
    brought: &[usize],
) -> ResolveResult<Outcome>
    requires { IsCommandShaped command }
    ensures { IfOk result (λ outcome.
        ExplainsReply script.now place.now tracked.old command coming.now brought.now
        outcome.reply (string_bytes outcome.text) tracked.new) }
{
    let asked = Asked::of(alloc, &tracked.resolve, &command)?;
    let reply = carry_out(alloc, &mut tracked.resolve, command);
    tracked.track(coming, unless_refused(&reply, brought))?;
    let text = reply_text(alloc, script, place, tracked, &asked, &reply)?;
    Ok(Outcome {
        reply: Some(reply),
        text,
    })
}

/// These, unless a reply is a refusal.
fn unless_refused<'a>(reply: &Reply, brought: &'a [usize]) -> &'a [usize]
    ensures { result.now ≡ unless_refused (Some reply.now) brought.now }
{
    match reply {
        Reply::Refused(_) => &[],
        _ => brought,
    }
}

/// What is told of a reply.
fn reply_text(
    alloc: Global,
    script: &ScriptLines,
    place: &CommandPlace,
    tracked: &TrackedGraph,
    asked: &Asked,
    reply: &Reply,
) -> ResolveResult<String>
    ensures { IfOk result (λ text.
        TellsReply script.now place.now tracked.now asked.now (Some reply.now)
        (string_bytes text)) }
{
    match reply {
        Reply::Refused(refusal) => refusal_text(alloc, script, place, tracked, asked, refusal),
        Reply::NoWorld => Ok(missing_text(alloc, script, place, "no world")?),
        _ => Ok(String::new(alloc)),
    }
}

/// What is told of a command that names what isn't there: this, and its line.
fn missing_text(
    alloc: Global,
    script: &ScriptLines,
    place: &CommandPlace,
    missing: &str,
) -> Result<String, AllocError>
    ensures { IfOk result
        (λ text. string_bytes text ≡ missing_text script.now place.now missing.now) }
{
    let command = command_text(alloc, script, place.line)?;
    format!(in alloc; "{missing}\n{command}")
}

/// `refused N TEXT`, N being the number of the refusal, the lines at which it is, its way, and where more is said of N.
fn refusal_text(
    alloc: Global,
    script: &ScriptLines,
    place: &CommandPlace,
    tracked: &TrackedGraph,
    asked: &Asked,
    refusal: &ResolveError,
) -> ResolveResult<String>
    ensures { IfOk result (λ text.
        TellsRefusal script.now place.now tracked.now asked.now refusal.now
        (string_bytes text)) }
{
    let number = refusal.number();
    let kind = refusal.kind();
    let places = places_text(alloc, script, place, tracked, kind)?;
    let way = way_of(alloc, &tracked.resolve, asked, kind)?;
    let shown = way_text(alloc, script, tracked, way.as_slice())?;
    Ok(format!(in alloc;
        "refused {number} {refusal}\n{places}{shown}      = {number} in docs/REFUSALS.md\n"
    )?)
}

/// The lines at which a refusal is: those that it names, and that of its command, where it is no `push` or no other line is
/// known.
fn places_text(
    alloc: Global,
    script: &ScriptLines,
    place: &CommandPlace,
    tracked: &TrackedGraph,
    kind: &ResolveErrorKind,
) -> Result<String, AllocError>
    ensures { IfOk result
        (λ text. string_bytes text ≡ places_text script.now place.now tracked.now kind.now) }
{
    let mut text = spans_text(alloc, script, tracked, kind)?;
    if !place.is_push || text.is_empty() {
        let command = command_text(alloc, script, place.line)?;
        text.push_str(&command)?;
    }
    Ok(text)
}

/// The lines that a refusal names: of a package that is defined twice both.
fn spans_text(
    alloc: Global,
    script: &ScriptLines,
    tracked: &TrackedGraph,
    kind: &ResolveErrorKind,
) -> Result<String, AllocError>
    ensures { IfOk result (λ text. string_bytes text ≡ spans_text script.now tracked.now kind.now) }
{
    match kind {
        ResolveErrorKind::DuplicatePackage { name, span1, span2 } => {
            let mut text = span_text(alloc, script, tracked, *span1)?;
            let second = other_text(alloc, script, tracked, name, *span2)?;
            text.push_str(&second)?;
            Ok(text)
        }
        kind => span_text(alloc, script, tracked, kind.span()),
    }
}

/// The line of the other package of a name: that of its span, or, where that is unknown since the graph has the package,
/// the line that began it.
fn other_text(
    alloc: Global,
    script: &ScriptLines,
    tracked: &TrackedGraph,
    name: &PackageName,
    span: Span,
) -> Result<String, AllocError>
    ensures { IfOk result
        (λ text. string_bytes text ≡ other_text script.now tracked.now name.now span) }
{
    if span.is_known() {
        return span_text(alloc, script, tracked, span);
    }
    match defined_line(alloc, script, tracked.package_starts.as_slice(), name)? {
        Some(index) => {
            let path = name.to_string(alloc)?;
            place_text(alloc, script, index, path.as_str(), index)
        }
        None => Ok(String::new(alloc)),
    }
}

/// The line of a span, or nothing where it is unknown.
fn span_text(
    alloc: Global,
    script: &ScriptLines,
    tracked: &TrackedGraph,
    span: Span,
) -> Result<String, AllocError>
    ensures { IfOk result (λ text. string_bytes text ≡ span_text script.now tracked.now span) }
{
    match span_place(script, tracked, span) {
        Some((index, path, first)) => place_text(alloc, script, index, path, first),
        None => Ok(String::new(alloc)),
    }
}

/// What is told of a world that is to be printed.
fn print(
    alloc: Global,
    script: &ScriptLines,
    place: &CommandPlace,
    tracked: &TrackedGraph,
    owner: &PackageName,
    world: &Text,
) -> ResolveResult<String>
    ensures { IfOk result (λ text.
        TellsCommand script.now place.now tracked.now Other (request.Print owner.now world.now) None
        (string_bytes text)) }
{
    match tracked.resolve.world_named(owner, world.as_str()) {
        Some(_) => Ok(String::new(alloc)),
        None => Ok(missing_text(alloc, script, place, "no world")?),
    }
}

/// What is told of the choice of a world of a package.
fn select(
    alloc: Global,
    script: &ScriptLines,
    place: &CommandPlace,
    tracked: &TrackedGraph,
    owner: &PackageName,
    text: &Option<Text>,
) -> ResolveResult<String>
    ensures { IfOk result (λ out.
        TellsCommand script.now place.now tracked.now Other (request.Select owner.now text.now) None
        (string_bytes out)) }
{
    let Some(id) = tracked.resolve.package_names().get(owner) else {
        return Ok(missing_text(alloc, script, place, "no package")?);
    };
    match chosen(alloc, tracked, *id, text) {
        Ok(_) => Ok(String::new(alloc)),
        Err(refusal) => refusal_text(alloc, script, place, tracked, &Asked::Other, &refusal),
    }
}

/// The world that is chosen of a package.
fn chosen(
    alloc: Global,
    tracked: &TrackedGraph,
    id: PackageId,
    text: &Option<Text>,
) -> ResolveResult<WorldId>
    ensures ok { IfOk result
        (λ world. IsSelection tracked.now.resolve.graph (id ∷ []) text.now (Ok world)) }
    ensures cause { IfErr result
        (λ kind. IsSelection tracked.now.resolve.graph (id ∷ []) text.now (Err kind)) }
{
    let text = match text {
        Some(text) => Some(text.as_str()),
        None => None,
    };
    tracked.resolve.select_world(alloc, &[id], text)
}
