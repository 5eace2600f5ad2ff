//! What the names of a command lead to.
ghost use Rattle.std.specs.Prelude.{◌≡◌, IfOk, option_copied, unwrap_or, []};
ghost use Rattle.wit_json_commands.specs.Targets.{done_answer, import_key_texts, keys_not_among, missing_answer, target_of, world_target};
ghost use Rattle.wit_resolve_graph.specs.steps.Parts.{HaveSameTexts};

use crate::replies::Answer;
use std::alloc::{AllocError, Global};
use wit_data::{Items, PackageName, Text, TryClone, WorldId};
use wit_graph_data::{Graph, ResolveResult};
use wit_resolve_graph::{Command, NameSet};

/// What the names of a command lead to, as its answer tells it.
#[derive(Drop)]
pub enum Target {
    /// It names no world.
    Graph,
    /// There is no package of that name.
    NoPackage,
    /// The package has no world of that name.
    NoWorld,
    /// The world, and the keys that are listed and that no import of it has.
    World { id: WorldId, unmatched: Items<Text> },
}

impl Target {
    /// What the names of a command lead to. It is to be known before the command is carried out, which changes the imports.
    /// The only refusal is want of memory (28).
    pub fn of(alloc: Global, graph: &Graph, command: &Command) -> ResolveResult<Target>
        ensures { IfOk result (λ target. target ≡ target_of graph.now command.now) }
    {
        match command {
            Command::Importize { package, world, .. } => {
                world_target(alloc, graph, package, world, None)
            }
            Command::Exportize {
                package,
                world,
                keys,
                ..
            } => world_target(alloc, graph, package, world, keys.as_ref()),
            Command::Semver { package, world } => {
                world_target(alloc, graph, package, world, None)
            }
            _ => Ok(Target::Graph),
        }
    }

    /// The answer where the command is carried out.
    pub fn done(self) -> Answer
        ensures { result ≡ done_answer self }
    {
        match self {
            Target::World { id, unmatched } => Answer::ChangedWorld {
                world: id,
                unmatched,
            },
            _ => Answer::Done,
        }
    }

    /// The answer where the world isn't there.
    pub fn missing(&self) -> Answer
        ensures { result ≡ missing_answer self.now }
    {
        match self {
            Target::NoPackage => Answer::NoPackage,
            _ => Answer::NoWorld,
        }
    }
}

/// The world of a name in the package of a name, and which of the keys that are listed it has not.
fn world_target(
    alloc: Global,
    graph: &Graph,
    package: &PackageName,
    name: &Text,
    keys: Option<&Items<Text>>,
) -> ResolveResult<Target>
    ensures { IfOk result (λ target.
        target ≡ world_target graph.now «package».now name.now (option_copied keys.entry)) }
{
    let Some(home) = graph.package_names.get(package) else {
        return Ok(Target::NoPackage);
    };
    let Some(id) = graph.world_in(*home, name.as_str()) else {
        return Ok(Target::NoWorld);
    };
    let unmatched = unmatched_keys(alloc, graph, id, keys)?;
    Ok(Target::World { id, unmatched })
}

/// The keys that are listed and that no import of a world has.
fn unmatched_keys(
    alloc: Global,
    graph: &Graph,
    world: WorldId,
    keys: Option<&Items<Text>>,
) -> ResolveResult<Items<Text>>
    ensures { IfOk result
        (λ unmatched. unmatched
        ≡ keys_not_among (import_key_texts graph.now world)
        (unwrap_or (option_copied keys.entry) [])) }
{
    let Some(keys) = keys else {
        return Ok(Items::new(alloc));
    };
    let texts = import_key_texts(alloc, graph, world)?;
    let set = set_of(alloc, texts.as_slice())?;
    let unmatched = keys_not_among(alloc, &set, keys.as_slice())?;
    Ok(unmatched)
}

/// What names the keys of the imports of a world.
fn import_key_texts(alloc: Global, graph: &Graph, id: WorldId) -> ResolveResult<Items<Text>>
    ensures { IfOk result (λ texts. texts ≡ import_key_texts graph.now id) }
{
    let mut texts = Items::new(alloc);
    let Some(world) = graph.worlds.get(id.index()) else {
        return Ok(texts);
    };
    for (key, _) in world.imports.iter() {
        let text = graph.name_world_key(alloc, key)?;
        texts.push(Text::from_string(text))?;
    }
    Ok(texts)
}

/// The texts of a list, each once, to look them up: in the list each look-up would cost its length.
fn set_of(alloc: Global, texts: &[Text]) -> Result<NameSet, AllocError>
    ensures { IfOk result (λ set. HaveSameTexts set texts.now) }
{
    let mut set = NameSet::new(alloc);
    for text in texts {
        set.insert(alloc, text.as_str())?;
    }
    Ok(set)
}

/// Those of some keys that aren't among others.
fn keys_not_among(alloc: Global, others: &NameSet, keys: &[Text]) -> Result<Items<Text>, AllocError>
    ensures { IfOk result (λ left. left ≡ keys_not_among others.now keys.now) }
{
    let mut left = Items::new(alloc);
    for key in keys {
        if !others.contains(key.as_str()) {
            let key = key.try_clone()?;
            left.push(key)?;
        }
    }
    Ok(left)
}
