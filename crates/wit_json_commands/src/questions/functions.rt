//! Functions by their places.
ghost use Rattle.std.specs.Prelude.{◌≡◌, IfOk};
ghost use Rattle.std.specs.Option.{option_copied};
ghost use Rattle.wit_elaboration.specs.Valid.{IsValid};
ghost use Rattle.wit_graph_data.specs.Queries.{futures_and_streams as function_futures};
ghost use Rattle.wit_json_commands.specs.Tells.{entry_function, found, function_at, function_under};
ghost use Rattle.wit_json_commands.specs.declared.commands.questions.FunctionSite.TheVariants as site;
ghost use Rattle.wit_json_commands.specs.declared.replies.answers.Answer.TheVariants as answers;

use super::names::{interface_named, world_named};
use crate::commands::{FunctionPlace, FunctionSite};
use crate::replies::Answer;
use std::alloc::Global;
use wit_data::{Function, Items, PackageName, Table, Text, WorldItem, WorldKey};
use wit_graph_data::{Graph, ResolveResult};
use wit_queries::futures::find_futures_and_streams;

/// The futures and streams that the values of a function hold.
pub fn futures_and_streams(
    alloc: Global,
    graph: &Graph,
    place: &FunctionPlace,
) -> ResolveResult<Answer>
    requires { IsValid graph.now }
    ensures { IfOk result (λ it.
        it
        ≡ found (λ f. answers.Types (function_futures graph.now.types f))
        (function_at graph.now place.now.site place.now.«package» place.now.name
        place.now.function)) }
{
    match function_at(graph, place) {
        Some(function) => {
            let found = find_futures_and_streams(alloc, graph, function)?;
            Ok(Answer::Types(Items::from_vec(found)))
        }
        None => Ok(Answer::NotFound),
    }
}

/// The function at a place.
fn function_at<'a>(graph: &'a Graph, place: &FunctionPlace) -> Option<&'a Function>
    ensures { option_copied result
        ≡ function_at graph.now place.now.site place.now.«package» place.now.name
        place.now.function }
{
    let (package, name, function) = (&place.package, place.name.as_str(), &place.function);
    match place.site {
        FunctionSite::Interface => interface_function(graph, package, name, function),
        FunctionSite::Import => import_function(graph, package, name, function),
        FunctionSite::Export => export_function(graph, package, name, function),
    }
}

/// A function of an interface.
fn interface_function<'a>(
    graph: &'a Graph,
    package: &PackageName,
    name: &str,
    function: &Text,
) -> Option<&'a Function>
    ensures { option_copied result
        ≡ function_at graph.now site.Interface «package».now name.now function.now }
{
    let id = interface_named(graph, package, name)?;
    graph
        .interfaces
        .get(id.index())?
        .functions
        .get(function.as_str())
}

/// A function that a world imports.
fn import_function<'a>(
    graph: &'a Graph,
    package: &PackageName,
    name: &str,
    function: &Text,
) -> Option<&'a Function>
    ensures { option_copied result
        ≡ function_at graph.now site.Import «package».now name.now function.now }
{
    let id = world_named(graph, package, name)?;
    function_under(&graph.worlds.get(id.index())?.imports, function)
}

/// A function that a world exports.
fn export_function<'a>(
    graph: &'a Graph,
    package: &PackageName,
    name: &str,
    function: &Text,
) -> Option<&'a Function>
    ensures { option_copied result
        ≡ function_at graph.now site.Export «package».now name.now function.now }
{
    let id = world_named(graph, package, name)?;
    function_under(&graph.worlds.get(id.index())?.exports, function)
}

/// The first function under a label.
fn function_under<'a>(entries: &'a Table<WorldKey, WorldItem>, label: &Text) -> Option<&'a Function>
    ensures { option_copied result ≡ function_under label.now entries.now }
{
    for (key, item) in entries.iter() {
        if let Some(function) = entry_function(key, item, label) {
            return Some(function);
        }
    }
    None
}

/// The function that an entry is, where it has this label.
fn entry_function<'a>(key: &WorldKey, item: &'a WorldItem, label: &Text) -> Option<&'a Function>
    ensures { option_copied result ≡ entry_function label.now (key.now, item.now) }
{
    match key {
        WorldKey::Name(name) => match item {
            WorldItem::Function(function) => { if name == label { Some(function) } else { None } }
            _ => None,
        },
        WorldKey::Interface(_) => None,
    }
}
