//! Which world a text names.
ghost use Rattle.std.specs.Prelude.{◌≡◌, IfOk};
ghost use Rattle.std.specs.Option.{option_map};
ghost use Rattle.wit_json_commands.specs.Tells.{TellsAmong, TellsSelected, packages_named};

use crate::replies::{Answer, refused};
use std::alloc::{AllocError, Global};
use wit_data::{Items, PackageId, PackageName, SourceMap, Text};
use wit_graph_data::{Graph, ResolveResult};
use wit_queries::selection::select_world;

/// The world that a text names among main packages, or why there is none.
pub fn select(
    alloc: Global,
    graph: &Graph,
    files: &SourceMap,
    packages: &Items<PackageName>,
    world: &Option<Text>,
) -> ResolveResult<Answer>
    ensures { IfOk result
        (λ answer. TellsAmong graph.now files.now (packages_named graph.now packages.now) world.now
        answer) }
{
    match packages_named(alloc, graph, packages.as_slice())? {
        Some(mains) => choose(alloc, graph, files, &mains, world),
        None => Ok(Answer::NotFound),
    }
}

/// The ids of packages of these names, where all are there.
fn packages_named(
    alloc: Global,
    graph: &Graph,
    names: &[PackageName],
) -> Result<Option<Vec<PackageId>>, AllocError>
    ensures { IfOk result
        (λ found. option_map (λ ids. ids.items) found ≡ packages_named graph.now names.now) }
{
    let mut ids = Vec::new(alloc);
    for name in names {
        match graph.package_names.get(name) {
            Some(id) => ids.push(*id)?,
            None => return Ok(None),
        }
    }
    Ok(Some(ids))
}

/// The same where the main packages are there.
fn choose(
    alloc: Global,
    graph: &Graph,
    files: &SourceMap,
    mains: &[PackageId],
    world: &Option<Text>,
) -> ResolveResult<Answer>
    ensures { IfOk result (λ answer. TellsSelected graph.now files.now mains.now world.now answer) }
{
    let text = match world {
        Some(text) => Some(text.as_str()),
        None => None,
    };
    match select_world(alloc, graph, mains, text) {
        Ok(id) => Ok(Answer::World(id)),
        Err(error) => Ok(refused(alloc, graph, files, "select", &[], error)?),
    }
}
