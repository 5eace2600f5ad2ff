//! The functions of another graph that move.
ghost use Rattle.std.specs.Prelude.{◌≡◌, ◌++◌, ◌<◌, ℕ, List, IfOk, None, OnOk, filter, get_or, is_some, length, map, not, option_and_then, slice_get};
ghost use Rattle.std.specs.List.{enumerate_from, flat_map};
ghost use Rattle.std.specs.Map.{lookup};
ghost use Rattle.std.specs.Option.{option_copied, option_map_or};
ghost use Rattle.std.specs.Str.{bytes_eq};
ghost use Rattle.wit_data.specs.Entries.{Entry};
ghost use Rattle.wit_data.specs.declared.function.Function.{Function};
ghost use Rattle.wit_data.specs.declared.interface.Interface.{Interface};
ghost use Rattle.wit_data.specs.declared.world.World.{World};
ghost use Rattle.wit_remap_spec.specs.Selected.{selected_with_index};
ghost use Rattle.wit_remap_spec.specs.ValueRemap.{item_function, world_functions};
ghost use Rattle.wit_merge_spec.specs.Merged.{brought_functions, moved_functions};
ghost use Rattle.wit_link_resources.specs.steps.Active.{seen};
ghost use Rattle.wit_merge.specs.steps.Behind.{functions_of};
ghost use Rattle.wit_merge_match.specs.steps.Matched.{AreMatches, merge_of_graphs, moves};
ghost use Rattle.wit_merge_spec.specs.steps.Parts.{interface_functions};

use crate::names::moves;
use std::alloc::{AllocError, Global};
use wit_data::{Function, Interface, Items, Names, Table, World, WorldItem, WorldKey};
use wit_graph_data::Graph;
use wit_merge_match::Matches;

/// The functions that move: those that interfaces bring, then those of the worlds that move.
pub(crate) fn moved_functions<'a>(
    alloc: Global,
    graph: &Graph,
    other: &'a Graph,
    matches: &Matches,
) -> Result<Vec<&'a Function>, AllocError>
    requires { AreMatches graph.now other.now matches.now }
    ensures { IfOk result (λ functions.
        seen functions.items ≡ moved_functions (merge_of_graphs graph.now other.now)) }
{
    let mut functions = Vec::new(alloc);
    push_interfaces(&mut functions, graph, other, matches)?;
    push_worlds(&mut functions, other, matches)?;
    Ok(functions)
}

/// The functions of some interfaces, then those of some worlds.
pub(crate) fn functions_of<'a>(
    alloc: Global,
    interfaces: &'a Items<Interface>,
    worlds: &'a Items<World>,
) -> Result<Vec<&'a Function>, AllocError>
    ensures { IfOk result
        (λ functions. seen functions.items ≡ functions_of interfaces.now worlds.now) }
{
    let mut functions = Vec::new(alloc);
    push_of_interfaces(&mut functions, interfaces)?;
    push_of_worlds(&mut functions, worlds)?;
    Ok(functions)
}

/// Adds those of some interfaces.
fn push_of_interfaces<'a>(
    functions: &mut Vec<&'a Function>,
    interfaces: &'a Items<Interface>,
) -> Result<(), AllocError>
    ensures { OnOk result (seen functions.new.items
        ≡ seen functions.old.items
        ++ flat_map (λ (interface : Interface).
        map (λ (e : List ℕ × Function). e.1) interface.functions) interfaces.now) }
{
    for interface in interfaces.as_slice() {
        push_all(functions, &interface.functions)?;
    }
    Ok(())
}

/// Adds those of some worlds.
fn push_of_worlds<'a>(
    functions: &mut Vec<&'a Function>,
    worlds: &'a Items<World>,
) -> Result<(), AllocError>
    ensures { OnOk result (seen functions.new.items
        ≡ seen functions.old.items ++ flat_map world_functions worlds.now) }
{
    for world in worlds.as_slice() {
        push_world(functions, world)?;
    }
    Ok(())
}

/// Adds those that interfaces bring.
fn push_interfaces<'a>(
    functions: &mut Vec<&'a Function>,
    graph: &Graph,
    other: &'a Graph,
    matches: &Matches,
) -> Result<(), AllocError>
    requires { AreMatches graph.now other.now matches.now }
    ensures { OnOk result (seen functions.new.items
        ≡ seen functions.old.items
        ++ flat_map (λ (e : ℕ × Interface).
        interface_functions (merge_of_graphs graph.now other.now) e.0 e.1)
        (enumerate_from 0 other.now.interfaces)) }
{
    for (index, from) in other.interfaces.as_slice().iter().enumerate() {
        let into = matched_interface(graph, matches, index);
        push_brought(functions, from, into)?;
    }
    Ok(())
}

/// The interface that is matched with one of the other graph.
fn matched_interface<'a>(graph: &'a Graph, matches: &Matches, place: usize) -> Option<&'a Interface>
    requires { place < length matches.now.interfaces }
    ensures { option_copied result
        ≡ option_and_then (slice_get graph.now.interfaces)
        (get_or matches.now.interfaces place None) }
{
    let id = (*matches.interfaces.at(place))?;
    graph.interfaces.get(id.index())
}

/// Adds those that an interface brings to the one that is matched with it, all where it is matched with none.
fn push_brought<'a>(
    functions: &mut Vec<&'a Function>,
    from: &'a Interface,
    into: Option<&Interface>,
) -> Result<(), AllocError>
    ensures { OnOk result (seen functions.new.items
        ≡ seen functions.old.items
        ++ map (λ (e : List ℕ × Function). e.1) (option_map_or (brought_functions from.now)
        (option_copied into.entry) from.now.functions)) }
{
    match into {
        Some(into) => push_missing(functions, &from.functions, &into.functions),
        None => push_all(functions, &from.functions),
    }
}

/// Adds those of some functions whose names aren't among others.
fn push_missing<'a>(
    functions: &mut Vec<&'a Function>,
    named: &'a Names<Function>,
    there: &Names<Function>,
) -> Result<(), AllocError>
    ensures { OnOk result (seen functions.new.items
        ≡ seen functions.old.items
        ++ map (λ (e : List ℕ × Function). e.1) (filter
        (λ (e : List ℕ × Function). not (is_some (lookup (bytes_eq e.0) there.now)))
        named.now)) }
{
    for (name, function) in named.iter() {
        if !there.contains_key(name) {
            functions.push(function)?;
        }
    }
    Ok(())
}

/// Adds all of some functions.
fn push_all<'a>(
    functions: &mut Vec<&'a Function>,
    named: &'a Names<Function>,
) -> Result<(), AllocError>
    ensures { OnOk result (seen functions.new.items
        ≡ seen functions.old.items ++ map (λ (e : List ℕ × Function). e.1) named.now) }
{
    for (_, function) in named.iter() {
        functions.push(function)?;
    }
    Ok(())
}

/// Adds those of the worlds that move.
fn push_worlds<'a>(
    functions: &mut Vec<&'a Function>,
    other: &'a Graph,
    matches: &Matches,
) -> Result<(), AllocError>
    ensures { OnOk result (seen functions.new.items
        ≡ seen functions.old.items
        ++ flat_map (λ (e : ℕ × World). world_functions e.1)
        (selected_with_index (moves matches.now.worlds) other.now.worlds)) }
{
    for (index, world) in other.worlds.as_slice().iter().enumerate() {
        if moves(&matches.worlds, index) {
            push_world(functions, world)?;
        }
    }
    Ok(())
}

/// Adds those of a world.
fn push_world<'a>(functions: &mut Vec<&'a Function>, world: &'a World) -> Result<(), AllocError>
    ensures { OnOk result
        (seen functions.new.items ≡ seen functions.old.items ++ world_functions world.now) }
{
    push_entries(functions, &world.imports)?;
    push_entries(functions, &world.exports)
}

/// Adds those among the entries of a world.
fn push_entries<'a>(
    functions: &mut Vec<&'a Function>,
    entries: &'a Table<WorldKey, WorldItem>,
) -> Result<(), AllocError>
    ensures { OnOk result (seen functions.new.items
        ≡ seen functions.old.items ++ flat_map (λ (e : Entry). item_function e.1) entries.now) }
{
    for (_, item) in entries.iter() {
        push_item(functions, item)?;
    }
    Ok(())
}

/// Adds the function that an entry is, where it is one.
fn push_item<'a>(functions: &mut Vec<&'a Function>, item: &'a WorldItem) -> Result<(), AllocError>
    ensures { OnOk result
        (seen functions.new.items ≡ seen functions.old.items ++ item_function item.now) }
{
    match item {
        WorldItem::Function(function) => functions.push(function)?,
        WorldItem::Interface { .. } | WorldItem::Type_ { .. } => {}
    }
    Ok(())
}
