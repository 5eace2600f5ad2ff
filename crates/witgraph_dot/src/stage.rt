//! A script as it is carried out.
ghost use Rattle.std.specs.Prelude.{◌≡◌, Some, IfOk, OnOk, false, is_some, string_bytes};
ghost use Rattle.wit_graph_data.specs.declared.error_kind.ResolveErrorKind.TheVariants.{OutOfMemory};
ghost use Rattle.wit_resolve_graph.specs.declared.command.Reply.TheVariants.{Refused};
ghost use Rattle.wit_script.specs.steps.Ready.{CanBeAsked, CanAllBeAsked};
ghost use Rattle.witgraph_dot.specs.Made.{CommandMakes, ScriptMakes, came_to_something, with_merged, stage_after};
ghost use Rattle.witgraph_dot.specs.steps.Parts.{new_stage, with_working_effect};

use crate::effect::Effect;
use crate::listing::Listing;
use std::alloc::{AllocError, Global};
use std::mem;
use wit_resolve_graph::{Items, Reply, ResolveError, ResolveErrorKind, ResolveResult};
use wit_script::ReadyCommand;
use wit_script_explain::{CommandPlace, Desk, Outcome, ScriptLines, explain_command, next_place};

/// The graphs of a script, and what lines list for the worlds of each.
#[derive(Drop)]
pub struct Stage {
    pub desk: Desk,
    /// For the worlds of the first graph.
    pub first: Listing,
    /// For those of the second, nothing where there is none.
    pub second: Listing,
}

impl Stage {
    /// An empty graph, for whose worlds nothing is listed.
    fn new(alloc: Global) -> Stage
        ensures { result ≡ new_stage }
    {
        Stage {
            desk: Desk::new(alloc),
            first: Listing::new(alloc),
            second: Listing::new(alloc),
        }
    }

    /// What there is after the commands of a script, on an empty graph, and what is told of them; each can be asked after
    /// those before it. The only refusal is want of memory, in a command or outside.
    pub fn after(
        alloc: Global,
        script: &ScriptLines,
        commands: Items<ReadyCommand>,
    ) -> ResolveResult<(Stage, String)>
        requires { CanAllBeAsked commands false }
        ensures { IfOk result (λ made.
            ScriptMakes script.now commands (string_bytes made.1) made.0) }
    {
        let mut stage = Stage::new(alloc);
        let mut all = String::new(alloc);
        let mut places = script.commands.as_slice();
        for command in commands.into_vec() {
            let (place, rest) = next_place(script, places);
            let text = stage.carry_out(alloc, script, &place, command)?;
            all.push_str(&text)?;
            places = rest;
        }
        Ok((stage, all))
    }

    /// Carries out a command, which stands at this place, and answers what is told of it. The only refusal is want of
    /// memory, in the command or outside.
    fn carry_out(
        &mut self,
        alloc: Global,
        script: &ScriptLines,
        place: &CommandPlace,
        command: ReadyCommand,
    ) -> ResolveResult<String>
        requires { CanBeAsked command (is_some self.old.desk.second) }
        ensures { IfOk result (λ text.
            CommandMakes script.now self.old (place.now, command) (string_bytes text) self.new) }
    {
        let request = command.into_request();
        let effect = Effect::of_request(alloc, &self.desk, &request)?;
        let command = ReadyCommand::new(request);
        let Outcome { reply, text } = explain_command(
            alloc,
            script,
            place,
            &mut self.desk,
            command,
        )?;
        check_memory(&reply)?;
        self.list(alloc, &effect, &reply)?;
        Ok(text)
    }

    /// Lists what a command lists, by its reply.
    fn list(
        &mut self,
        alloc: Global,
        effect: &Effect,
        reply: &Option<Reply>,
    ) -> Result<(), AllocError>
        ensures { OnOk result (self.new
            ≡ stage_after effect.now reply.now self.old.desk self.old.first self.old.second) }
    {
        match effect {
            Effect::Opens => {
                self.second = Listing::new(alloc);
                Ok(())
            }
            Effect::Joins => {
                let second = mem::replace(&mut self.second, Listing::new(alloc));
                join(&mut self.first, &second, reply)
            }
            effect => {
                if came_to_something(reply) {
                    self.apply(alloc, effect)?;
                }
                Ok(())
            }
        }
    }

    /// Lists what a command lists that came to something, on the graph on which commands work.
    fn apply(&mut self, alloc: Global, effect: &Effect) -> Result<(), AllocError>
        ensures { OnOk result (self.new
            ≡ with_working_effect self.old.desk effect.now self.old.desk.second self.old.first
            self.old.second) }
    {
        match &self.desk.second {
            Some(second) => effect.apply(alloc, &second.resolve, &mut self.second),
            None => effect.apply(alloc, &self.desk.first.resolve, &mut self.first),
        }
    }
}

/// Lists for the first graph what the second lists, by the reply to the merge.
fn join(first: &mut Listing, second: &Listing, reply: &Option<Reply>) -> Result<(), AllocError>
    ensures { OnOk result (first.new ≡ with_merged reply.now first.old second.now) }
{
    match reply {
        Some(Reply::Merged(remap)) => first.merge(second, remap),
        _ => Ok(()),
    }
}

/// Whether a command came to something, by its reply.
fn came_to_something(reply: &Option<Reply>) -> bool
    ensures { result ≡ came_to_something reply.now }
{
    match reply {
        Some(Reply::Refused(_)) => false,
        Some(Reply::NoWorld) => false,
        Some(_) => true,
        None => false,
    }
}

/// Refuses want of memory in a command: nothing is drawn then, since with more memory the graph is another.
fn check_memory(reply: &Option<Reply>) -> ResolveResult<()>
    ensures { OnOk result (reply.now ≡ Some (Refused OutOfMemory) → ⊥) }
{
    match reply {
        Some(Reply::Refused(refusal)) => match refusal.kind() {
            ResolveErrorKind::OutOfMemory => Err(ResolveError::from(AllocError)),
            _ => Ok(()),
        },
        _ => Ok(()),
    }
}
