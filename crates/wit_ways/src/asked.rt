//! What a command asks and brings, and all that leads where when it is refused.
ghost use Rattle.std.specs.Prelude.{◌≡◌, IfOk, option_copied, unwrap_or};
ghost use Rattle.wit_ways.specs.Asked.{asked_graph, asked_of, asked_side, chosen_keys, coming_arrows, coming_includes, coming_worlds, known_arrows};

use crate::arrow::Arrow;
use crate::coming::Coming;
use crate::entries::WorldSide;
use crate::graph_arrow::graph_arrows;
use crate::include::Include;
use crate::world_name::WorldPlace;
use std::alloc::{AllocError, Global};
use wit_data::{Items, PackageName, Text, TryClone};
use wit_graph_data::Graph;
use wit_resolve_graph::{Command, Resolve};
use wit_semver::graph_with_new_entries;
use wit_values::try_clone_two;

/// What a command asks and brings, as far as ways go by it.
#[derive(Drop)]
pub enum Asked {
    /// Packages come.
    Push(Coming),
    /// A graph comes.
    Merge(Coming),
    /// Imports are to be exported, those under these keys or all.
    Exportize(Option<Items<Text>>),
    /// The imports of a world are to be merged.
    Semver { package: PackageName, world: Text },
    /// No way goes by what it asks.
    Other,
}

impl Asked {
    /// What a command asks of a graph. It is to be known before the command is carried out, which uses up what comes.
    pub fn of(alloc: Global, resolve: &Resolve, command: &Command) -> Result<Asked, AllocError>
        ensures { IfOk result (λ asked. asked ≡ asked_of resolve.now command.now) }
    {
        let offset = resolve.source_map().end();
        match command {
            Command::PushGroups { main, deps } => {
                let features = resolve.features();
                let coming = Coming::of_groups(alloc, features, offset, main, deps.as_slice())?;
                Ok(Asked::Push(coming))
            }
            Command::Merge(other) => {
                let coming = Coming::of_graph(alloc, offset, other.graph())?;
                Ok(Asked::Merge(coming))
            }
            Command::Exportize { keys, .. } => Ok(Asked::Exportize(keys.try_clone()?)),
            Command::Semver { package, world } => {
                let (package, world) = try_clone_two(package, world)?;
                Ok(Asked::Semver { package, world })
            }
            _ => Ok(Asked::Other),
        }
    }

    /// What leads where in what comes.
    fn arrows(&self) -> &[Arrow]
        ensures { result.now ≡ coming_arrows self.now }
    {
        match self {
            Asked::Push(coming) => coming.arrows.as_slice(),
            Asked::Merge(coming) => coming.arrows.as_slice(),
            _ => &[],
        }
    }

    /// What worlds include that come.
    pub(crate) fn includes(&self) -> &[Include]
        ensures { result.now ≡ coming_includes self.now }
    {
        match self {
            Asked::Push(coming) => coming.includes.as_slice(),
            _ => &[],
        }
    }

    /// Where the worlds stand that come.
    pub(crate) fn worlds(&self) -> &[WorldPlace]
        ensures { result.now ≡ coming_worlds self.now }
    {
        match self {
            Asked::Push(coming) => coming.worlds.as_slice(),
            Asked::Merge(coming) => coming.worlds.as_slice(),
            _ => &[],
        }
    }

    /// The side of worlds on which what is to be exported stands: of `exportize` the imports.
    fn side(&self) -> WorldSide
        ensures { result ≡ asked_side self.now }
    {
        match self {
            Asked::Exportize(_) => WorldSide::Imports,
            _ => WorldSide::Exports,
        }
    }

    /// The keys that an `exportize` chooses.
    pub(crate) fn keys(&self) -> Option<&Items<Text>>
        ensures { option_copied result ≡ chosen_keys self.now }
    {
        match self {
            Asked::Exportize(keys) => keys.as_ref(),
            _ => None,
        }
    }
}

/// The graph with its new entries where the imports of a world are to be merged; None where the graph as it is is the one of
/// which a refusal speaks.
pub fn asked_graph(
    alloc: Global,
    resolve: &Resolve,
    asked: &Asked,
) -> Result<Option<Graph>, AllocError>
    ensures { IfOk result
        (λ made. asked_graph resolve.now asked.now ≡ unwrap_or made resolve.now.graph) }
{
    let Asked::Semver { package, world } = asked else {
        return Ok(None);
    };
    let Some(id) = resolve.world_named(package, world.as_str()) else {
        return Ok(None);
    };
    let (graph, rule) = (resolve.graph(), resolve.track_rule());
    Ok(Some(graph_with_new_entries(alloc, graph, id, rule)?))
}

/// The graph that was made, where one was, else the one that is there.
pub fn made_or_known<'a>(made: &'a Option<Graph>, resolve: &'a Resolve) -> &'a Graph
    ensures { result.now ≡ unwrap_or made.now resolve.now.graph }
{
    match made {
        Some(graph) => graph,
        None => resolve.graph(),
    }
}

/// What leads where: in the graph of which a refusal speaks, and in what comes.
pub fn known_arrows(
    alloc: Global,
    resolve: &Resolve,
    asked: &Asked,
) -> Result<Items<Arrow>, AllocError>
    ensures { IfOk result (λ arrows. arrows ≡ known_arrows resolve.now asked.now) }
{
    let made = asked_graph(alloc, resolve, asked)?;
    let graph = made_or_known(&made, resolve);
    let mut arrows = graph_arrows(alloc, 0, graph, asked.side())?;
    for arrow in asked.arrows() {
        arrows.push(arrow.try_clone()?)?;
    }
    Ok(arrows)
}
