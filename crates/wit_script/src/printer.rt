//! What a world prints as.
ghost use Rattle.std.specs.Prelude.{◌≡◌, ◌++◌, IfErr, IfOk, OnOk, string_bytes};
ghost use Rattle.std.specs.List.{flat_map};
ghost use Rattle.wit_graph_data.specs.declared.error_kind.ResolveErrorKind.TheVariants.{OutOfMemory};
ghost use Rattle.wit_script.specs.World.{world_id_text_at, world_text_at, entry_text, entry_line};
ghost use Rattle.wit_script.specs.steps.Parts.{labelled_text};

use std::alloc::Global;
use std::fmt::Write;
use wit_data::{Table, Text, WorldId, WorldItem, WorldKey};
use wit_resolve_graph::{Graph, Resolve, ResolveResult};

/// A world of the graph as lines of text, each with a newline: `world` and its id text, then a line for
/// each import and each export. Empty where the world isn't there. The only refusal is want of memory
/// (28).
pub fn print_world(alloc: Global, resolve: &Resolve, id: WorldId) -> ResolveResult<String>
    ensures text { IfOk result (λ text. string_bytes text ≡ world_text_at resolve.now.graph id) }
    ensures memory { IfErr result (λ e. e ≡ OutOfMemory) }
{
    let graph = resolve.graph();
    let Some(world) = graph.worlds.get(id.index()) else {
        return Ok(String::new(alloc));
    };
    let id_text = world_id_text(alloc, graph, id)?;
    let mut text = format!(in alloc; "world {id_text}\n")?;
    print_entries(alloc, graph, "import", &world.imports, &mut text)?;
    print_entries(alloc, graph, "export", &world.exports, &mut text)?;
    Ok(text)
}

/// The id text of a world. Empty where it isn't there or has no package. The only refusal is want of
/// memory (28).
pub fn world_id_text(alloc: Global, graph: &Graph, id: WorldId) -> ResolveResult<String>
    ensures text { IfOk result (λ text. string_bytes text ≡ world_id_text_at graph.now id) }
    ensures memory { IfErr result (λ e. e ≡ OutOfMemory) }
{
    let Some(world) = graph.worlds.get(id.index()) else {
        return Ok(String::new(alloc));
    };
    match world.package {
        Some(package) => graph.id_of_name(alloc, package, world.name.as_str()),
        None => Ok(String::new(alloc)),
    }
}

/// Adds a line for each entry.
fn print_entries(
    alloc: Global,
    graph: &Graph,
    word: &str,
    entries: &Table<WorldKey, WorldItem>,
    text: &mut String,
) -> ResolveResult<()>
    ensures memory { IfErr result (λ e. e ≡ OutOfMemory) }
    ensures text { OnOk result (string_bytes text.new
        ≡ string_bytes text.old ++ flat_map (entry_line graph.now word.now) entries.now) }
{
    for (key, item) in entries.iter() {
        let entry = print_entry(alloc, graph, key, item)?;
        write!(text, "  {word} {entry}\n")?;
    }
    Ok(())
}

/// What an entry prints as after its word.
fn print_entry(
    alloc: Global,
    graph: &Graph,
    key: &WorldKey,
    item: &WorldItem,
) -> ResolveResult<String>
    ensures text { IfOk result (λ text. string_bytes text ≡ entry_text graph.now key.now item.now) }
    ensures memory { IfErr result (λ e. e ≡ OutOfMemory) }
{
    match key {
        WorldKey::Interface(_) => graph.name_world_key(alloc, key),
        WorldKey::Name(label) => print_labelled(alloc, graph, label, item),
    }
}

/// What an entry under a label prints as.
fn print_labelled(
    alloc: Global,
    graph: &Graph,
    label: &Text,
    item: &WorldItem,
) -> ResolveResult<String>
    ensures text { IfOk result
        (λ text. string_bytes text ≡ labelled_text graph.now label.now item.now) }
    ensures memory { IfErr result (λ e. e ≡ OutOfMemory) }
{
    match item {
        WorldItem::Interface { id, .. } => match graph.id_of(alloc, *id)? {
            Some(id_text) => Ok(format!(in alloc; "{label} = {id_text}")?),
            None => Ok(String::from_str(alloc, label.as_str())?),
        },
        WorldItem::Function(_) => Ok(format!(in alloc; "func {label}")?),
        WorldItem::Type_ { .. } => Ok(format!(in alloc; "type {label}")?),
    }
}
