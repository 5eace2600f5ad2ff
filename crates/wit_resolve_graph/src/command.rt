//! Commands and their replies as data, and runs of commands.
ghost use Rattle.std.specs.Prelude.{◌≡◌, IfErr, IfOk, OnErr};
ghost use Rattle.std.specs.List.{AllByRecursion};
ghost use Rattle.wit_graph_data.specs.declared.error_kind.ResolveErrorKind.TheVariants.{OutOfMemory};
ghost use Rattle.wit_resolve_graph.specs.Step.{IsCommandShaped, Run, Step, command_of};
ghost use Rattle.wit_resolve_graph.specs.declared.command.Command.TheVariants.{AddFeature};

use crate::resolve::Resolve;
use crate::transformations::{exportize, importize, merge_world_imports};
use std::alloc::Global;
use wit_commands::Change;
use wit_data::{Items, PackageId, PackageName, Text, TrackRule, UnresolvedPackageGroup};
use wit_graph_data::{ResolveError, ResolveResult};
use wit_link::Remap;

/// A change of a `Resolve`, or the merge of a second one. A world is named by its package's name and its own.
#[derive(Drop)]
pub enum Command {
    /// Turns a feature on: see `Resolve::add_feature`.
    AddFeature(Text),
    /// Turns all features on, or leaves those that are named.
    SetAllFeatures(bool),
    /// Sets the rule by which versions stand on one track.
    SetTrackRule(TrackRule),
    /// Adds the packages of groups, dependencies first: see `Resolve::push_groups`.
    PushGroups {
        main: UnresolvedPackageGroup,
        deps: Items<UnresolvedPackageGroup>,
    },
    /// Makes one of this and another, which is used up: see `Resolve::merge`.
    Merge(Resolve),
    /// Turns the exports of a world into its imports: see `Resolve::importize`.
    Importize {
        package: PackageName,
        world: Text,
        out: Option<Text>,
    },
    /// Turns imports of a world into its exports, all or those whose keys are listed as
    /// `name_world_key` names them: see `Resolve::exportize`.
    Exportize {
        package: PackageName,
        world: Text,
        out: Option<Text>,
        keys: Option<Items<Text>>,
    },
    /// Leaves of the imports of a world the greatest version on each track: see
    /// `Resolve::merge_world_imports_based_on_semver`.
    Semver {
        package: PackageName,
        world: Text,
    },
}

/// The answer to a command.
#[derive(Drop)]
pub enum Reply {
    /// It is carried out.
    Done,
    /// The id of the main group's main package.
    Pushed(PackageId),
    /// Where the things of the other stand now.
    Merged(Remap),
    /// There is no world of that name in a package of that name, and nothing was changed.
    NoWorld,
    /// It is refused, and nothing was changed but the source map.
    Refused(ResolveError),
}

/// Runs commands in order and answers a reply to each; a refusal is a reply. It first makes room for all replies: if
/// there is no memory for it (28), nothing has changed.
///
/// The packages of a `PushGroups` have their shape, as `Resolve::push_groups` asks.
pub fn run(
    alloc: Global,
    resolve: &mut Resolve,
    commands: Vec<Command>,
) -> ResolveResult<Vec<Reply>>
    requires { AllByRecursion IsCommandShaped commands.items }
    ensures ok { IfOk result (λ replies. Run resolve.old commands.items replies.items resolve.new) }
    ensures unchanged { OnErr result (resolve.new ≡ resolve.old) }
    ensures cause { IfErr result (λ kind. kind ≡ OutOfMemory) }
{
    let mut replies = Vec::with_capacity(alloc, commands.len())?;
    for command in commands {
        let reply = carry_out(alloc, resolve, command);
        replies.push(reply).unwrap();
    }
    Ok(replies)
}

/// Carries out one command, and answers its reply.
///
/// The packages of a `PushGroups` have their shape, as `Resolve::push_groups` asks.
pub fn carry_out(alloc: Global, resolve: &mut Resolve, command: Command) -> Reply
    requires { IsCommandShaped command }
    ensures { Step resolve.old command result resolve.new }
{
    match command {
        Command::AddFeature(name) => add_feature(alloc, resolve, name),
        Command::SetAllFeatures(all) => {
            resolve.set_all_features(all);
            Reply::Done
        }
        Command::SetTrackRule(rule) => {
            resolve.set_track_rule(rule);
            Reply::Done
        }
        Command::PushGroups { main, deps } => match resolve.push_groups(alloc, main, deps) {
            Ok(id) => Reply::Pushed(id),
            Err(refusal) => Reply::Refused(refusal),
        },
        Command::Importize {
            package,
            world,
            out,
        } => importize(alloc, resolve, package, world, out),
        Command::Exportize {
            package,
            world,
            out,
            keys,
        } => exportize(alloc, resolve, package, world, out, keys),
        Command::Semver { package, world } => {
            merge_world_imports(alloc, resolve, package, world)
        }
        Command::Merge(other) => match resolve.merge(alloc, other) {
            Ok(remap) => Reply::Merged(remap),
            Err(refusal) => Reply::Refused(refusal),
        },
    }
}

/// The reply to `AddFeature`.
fn add_feature(alloc: Global, resolve: &mut Resolve, name: Text) -> Reply
    ensures { Step resolve.old (AddFeature name) result resolve.new }
{
    match resolve.add_feature(alloc, name.as_str()) {
        Ok(()) => Reply::Done,
        Err(refusal) => Reply::Refused(refusal),
    }
}

/// The command that a change is.
pub fn command_of(change: Change) -> Command
    ensures { result ≡ command_of change }
{
    match change {
        Change::AddFeature(name) => Command::AddFeature(name),
        Change::SetAllFeatures(all) => Command::SetAllFeatures(all),
        Change::SetTrackRule(rule) => Command::SetTrackRule(rule),
        Change::PushGroups { main, deps } => Command::PushGroups { main, deps },
        Change::Importize {
            package,
            world,
            out,
        } => Command::Importize {
            package,
            world,
            out,
        },
        Change::Exportize {
            package,
            world,
            out,
            keys,
        } => Command::Exportize {
            package,
            world,
            out,
            keys,
        },
        Change::Semver { package, world } => Command::Semver { package, world },
    }
}
