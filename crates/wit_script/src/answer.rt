//! The answers to the commands of a script.
ghost use Rattle.std.specs.Prelude.{◌≡◌, ◌≢◌, [], ◌∷◌, ℕ, None, Some, Ok, Err, IfErr, IfOk, false, is_some, string_bytes};
ghost use Rattle.wit_resolve_graph.specs.State.{new_state};
ghost use Rattle.wit_resolve_graph.specs.Step.{IsCommandShaped, command_of};
ghost use Rattle.wit_queries.specs.Selection.{IsSelection};
ghost use Rattle.wit_script.specs.Answer.{Answers, InTurn, only_first, refusal_text, reply_text, working_state};
ghost use Rattle.wit_script.specs.steps.Answer.{AnswersCommand, IsResultLine};
ghost use Rattle.wit_script.specs.steps.Ready.{CanBeAsked, CanAllBeAsked};
ghost use Rattle.wit_script.specs.declared.answer.Stage.{Stage};
ghost use Rattle.wit_script_lines.specs.declared.request.Request.TheVariants as asked;
ghost use Rattle.wit_script.specs.steps.Parts.{pushed_text, selected_text, AnswersPrint, AnswersSelect};

use crate::printer::{print_world, world_id_text};
use crate::ready::ReadyCommand;
use std::alloc::{AllocError, Global};
use wit_commands::Change;
use wit_data::{Items, PackageId, PackageName, Text, WorldId};
use wit_resolve_graph::{
    Command, Reply, Resolve, ResolveError, ResolveResult, carry_out, command_of,
};
use wit_script_lines::Request;

/// The graph of a script, and the second one between `other` and `merge`.
#[derive(Drop)]
pub struct Stage {
    /// The graph of the script.
    pub first: Resolve,
    /// The second graph, which goes into the first at `merge`.
    pub second: Option<Resolve>,
}

impl Stage {
    /// An empty graph, and no other.
    pub fn new(alloc: Global) -> Stage
        ensures { result ≡ only_first new_state }
    {
        Stage {
            first: Resolve::new(alloc),
            second: None,
        }
    }

    /// The graph on which commands work: the second, where there is one.
    pub fn working_state(&self) -> &Resolve
        ensures { result.now ≡ working_state self.now }
    {
        match &self.second {
            Some(second) => second,
            None => &self.first,
        }
    }

    /// Carries out a change of that graph, and tells its reply.
    fn change(&mut self, alloc: Global, change: Change) -> Result<String, AllocError>
        requires { IsCommandShaped (command_of change) }
        ensures { IfOk result
            (λ text. Answers self.old (asked.Change change) (string_bytes text) self.new) }
    {
        let is_setting = change.is_setting();
        let command = command_of(change);
        match &mut self.second {
            Some(second) => reply_to(alloc, second, command, is_setting),
            None => reply_to(alloc, &mut self.first, command, is_setting),
        }
    }

    /// `other`: a second graph, which is empty.
    fn open(&mut self, alloc: Global)
        requires { self.old.second ≡ None }
        ensures { self.new ≡ record self.old { second = Some new_state } }
    {
        self.second = Some(Resolve::new(alloc));
    }

    /// `merge`: the second graph goes into the first, and is no longer there, whether it is refused or not.
    fn merge(&mut self, alloc: Global) -> Result<String, AllocError>
        requires { self.old.second ≢ None }
        ensures { IfOk result
            (λ text. Answers self.old asked.Merge (string_bytes text) self.new) }
    {
        match self.second.take() {
            Some(second) => reply_to(alloc, &mut self.first, Command::Merge(second), false),
            None => unreachable!(),
        }
    }
}

/// The answers to commands on an empty graph, in order, of which each can be asked after those before it, as
/// `other_after` tells. Want of memory in a command is told as its answer (28); elsewhere it is the only error.
pub fn answers_to(alloc: Global, commands: Items<ReadyCommand>) -> Result<String, AllocError>
    requires { CanAllBeAsked commands false }
    ensures { IfOk result (λ text.
        (after : Stage)
        × InTurn Answers (only_first new_state) commands (string_bytes text) after) }
{
    let mut stage = Stage::new(alloc);
    let mut answers = String::new(alloc);
    for command in commands.into_vec() {
        let answer = answer_to(alloc, &mut stage, command)?;
        answers.push_str(&answer)?;
    }
    Ok(answers)
}

/// The answer to a command.
fn answer_to(alloc: Global, stage: &mut Stage, command: ReadyCommand) -> Result<String, AllocError>
    requires { CanBeAsked command (is_some stage.old.second) }
    ensures { IfOk result (λ text. Answers stage.old command (string_bytes text) stage.new) }
{
    match command.into_request() {
        Request::Change(change) => stage.change(alloc, change),
        Request::Other => {
            stage.open(alloc);
            Ok(String::new(alloc))
        }
        Request::Merge => stage.merge(alloc),
        Request::Print { package, world } => print(alloc, stage.working_state(), &package, &world),
        Request::Select { package, text } => select(alloc, stage.working_state(), &package, &text),
    }
}

/// The reply to a command, which sets something or doesn't.
fn reply_to(
    alloc: Global,
    resolve: &mut Resolve,
    command: Command,
    is_setting: bool,
) -> Result<String, AllocError>
    requires { IsCommandShaped command }
    ensures { IfOk result (λ text.
        AnswersCommand is_setting resolve.old command (string_bytes text) resolve.new) }
{
    let reply = carry_out(alloc, resolve, command);
    reply_text(alloc, resolve, &reply, is_setting)
}

/// The line of a reply: nothing where what sets something is carried out.
fn reply_text(
    alloc: Global,
    resolve: &Resolve,
    reply: &Reply,
    is_setting: bool,
) -> Result<String, AllocError>
    ensures { IfOk result
        (λ text. string_bytes text ≡ reply_text is_setting resolve.now.graph reply.now) }
{
    match reply {
        Reply::Done if is_setting => Ok(String::new(alloc)),
        Reply::Done => String::from_str(alloc, "done\n"),
        Reply::Pushed(id) => pushed(alloc, resolve, *id),
        Reply::Merged(_) => String::from_str(alloc, "merged\n"),
        Reply::NoWorld => String::from_str(alloc, "no world\n"),
        Reply::Refused(refusal) => refused(alloc, refusal),
    }
}

/// `pushed PKG`
fn pushed(alloc: Global, resolve: &Resolve, id: PackageId) -> Result<String, AllocError>
    ensures { IfOk result (λ text. string_bytes text ≡ pushed_text resolve.now.graph id) }
{
    match resolve.packages().get(id.index()) {
        Some(package) => {
            let name = &package.name;
            format!(in alloc; "pushed {name}\n")
        }
        None => Ok(String::new(alloc)),
    }
}

/// `refused N TEXT`, N being the number of the refusal.
fn refused(alloc: Global, refusal: &ResolveError) -> Result<String, AllocError>
    ensures { IfOk result (λ text. string_bytes text ≡ refusal_text refusal.now) }
{
    let number = refusal.number();
    format!(in alloc; "refused {number} {refusal}\n")
}

/// The text of an answer that may be refused.
fn told(alloc: Global, answer: ResolveResult<String>) -> Result<String, AllocError>
    ensures { IfOk result (λ text. IsResultLine answer (string_bytes text)) }
{
    match answer {
        Ok(text) => Ok(text),
        Err(refusal) => refused(alloc, &refusal),
    }
}

/// A world as the graph has it, or `no world`.
fn print(
    alloc: Global,
    resolve: &Resolve,
    owner: &PackageName,
    world: &Text,
) -> Result<String, AllocError>
    ensures { IfOk result
        (λ text. AnswersPrint resolve.now.graph owner.now world.now (string_bytes text)) }
{
    match resolve.world_named(owner, world.as_str()) {
        Some(id) => told(alloc, print_world(alloc, resolve, id)),
        None => String::from_str(alloc, "no world\n"),
    }
}

/// The world that is chosen for a main package: `selected ID`, `no package`, or a refusal.
fn select(
    alloc: Global,
    resolve: &Resolve,
    owner: &PackageName,
    text: &Option<Text>,
) -> Result<String, AllocError>
    ensures { IfOk result
        (λ out. AnswersSelect resolve.now.graph owner.now text.now (string_bytes out)) }
{
    match resolve.package_names().get(owner) {
        Some(id) => told(alloc, selected(alloc, resolve, *id, text)),
        None => String::from_str(alloc, "no package\n"),
    }
}

/// `selected ID`, or a refusal.
fn selected(
    alloc: Global,
    resolve: &Resolve,
    id: PackageId,
    text: &Option<Text>,
) -> ResolveResult<String>
    ensures ok { IfOk result (λ out.
        (world : ℕ) × IsSelection resolve.now.graph (id ∷ []) text.now (Ok world)
        × (string_bytes out ≡ selected_text resolve.now.graph world)) }
    ensures cause { IfErr result
        (λ kind. IsSelection resolve.now.graph (id ∷ []) text.now (Err kind)) }
{
    let text = match text {
        Some(text) => Some(text.as_str()),
        None => None,
    };
    let world = resolve.select_world(alloc, &[id], text)?;
    let id_text = world_id_text(alloc, resolve.graph(), world)?;
    Ok(format!(in alloc; "selected {id_text}\n")?)
}
