//! Where the things of a graph stand that a message of 24 or 25 names.
ghost use Rattle.std.specs.Option.{option_copied};
ghost use Rattle.std.specs.Prelude.{◌≡◌, IfOk, map, option_map, string_bytes};
ghost use Rattle.wit_json_commands.specs.Mismatches.{rest_behind, function_place, id_of, item_place, merge_place, names, newer_place, older_place, place_by_newer, place_in_interface, place_in_package, place_in_world, type_place, upgrade_place};
ghost use Rattle.wit_json_commands.specs.Places.{first_known};

use super::places::world_span;
use std::alloc::{AllocError, Global};
use wit_data::{Function, Interface, InterfaceId, Names, Span, TypeId, WorldId};
use wit_graph_data::{Graph, Package};

/// What follows in a text that begins with a name between a front and an end.
fn rest_behind<'a>(text: &'a [u8], front: &str, name: &str, end: &str) -> Option<&'a [u8]>
    ensures { option_copied result ≡ rest_behind front.now name.now end.now text.now }
{
    let named = text.strip_prefix(front.as_bytes())?;
    let rest = named.strip_prefix(name.as_bytes())?;
    rest.strip_prefix(end.as_bytes())
}

/// Whether a text begins with a name between a front and an end.
fn names(text: &[u8], front: &str, name: &str, end: &str) -> bool
    ensures { result ≡ names front.now name.now end.now text.now }
{
    rest_behind(text, front, name, end).is_some()
}

/// Where a function stands, if a text names it.
fn function_place(text: &[u8], name: &str, function: &Function) -> Span
    ensures { result ≡ function_place text.now (name.now, function.now) }
{
    if names(text, "mismatch in function `", name, "`: ")
        || names(
            text,
            "failed to merge interfaces: mismatch in function `",
            name,
            "`: ",
        )
    {
        function.span
    } else {
        Span::unknown()
    }
}

/// Where a type stands, if a text names it.
fn type_place(graph: &Graph, text: &[u8], name: &str, id: TypeId) -> Span
    ensures { result ≡ type_place graph.now text.now (name.now, id) }
{
    if !names(text, "mismatch in type `", name, "`")
        && !names(text, "type `", name, "` is missing")
    {
        return Span::unknown();
    }
    match graph.types.get(id.index()) {
        Some(def) => def.span,
        None => Span::unknown(),
    }
}

/// Where one of some functions stands that a text names.
fn place_of_functions(text: &[u8], functions: &Names<Function>) -> Span
    ensures { result ≡ first_known (map (function_place text.now) functions.now) }
{
    for (name, function) in functions.iter() {
        let span = function_place(text, name, function);
        if span.is_known() {
            return span;
        }
    }
    Span::unknown()
}

/// Where one of some types stands that a text names.
fn place_of_types(graph: &Graph, text: &[u8], types: &Names<TypeId>) -> Span
    ensures { result ≡ first_known (map (type_place graph.now text.now) types.now) }
{
    for (name, id) in types.iter() {
        let span = type_place(graph, text, name, *id);
        if span.is_known() {
            return span;
        }
    }
    Span::unknown()
}

/// Where an interface has the function or the type that a text names, or else where it stands itself.
fn item_place(graph: &Graph, text: &[u8], interface: &Interface) -> Span
    ensures { result ≡ item_place graph.now text.now interface.now }
{
    let function = place_of_functions(text, &interface.functions);
    if function.is_known() {
        return function;
    }
    let def = place_of_types(graph, text, &interface.types);
    if def.is_known() { def } else { interface.span }
}

/// Where an interface of a package has what a text names, if the text names it.
fn place_in_interface(graph: &Graph, text: &[u8], name: &str, id: InterfaceId) -> Span
    ensures { result ≡ place_in_interface graph.now text.now (name.now, id) }
{
    let Some(rest) = rest_behind(text, "failed to merge interface `", name, "`: ") else {
        return Span::unknown();
    };
    match graph.interfaces.get(id.index()) {
        Some(interface) => item_place(graph, rest, interface),
        None => Span::unknown(),
    }
}

/// Where a world of a package stands, if a text names it.
fn place_in_world(graph: &Graph, text: &[u8], name: &str, id: WorldId) -> Span
    ensures { result ≡ place_in_world graph.now text.now (name.now, id) }
{
    match rest_behind(text, "failed to merge world `", name, "`: ") {
        Some(_) => world_span(graph, id),
        None => Span::unknown(),
    }
}

/// Where one of some interfaces has what a text names.
fn place_of_interfaces(graph: &Graph, text: &[u8], interfaces: &Names<InterfaceId>) -> Span
    ensures { result ≡ first_known (map (place_in_interface graph.now text.now) interfaces.now) }
{
    for (name, id) in interfaces.iter() {
        let span = place_in_interface(graph, text, name, *id);
        if span.is_known() {
            return span;
        }
    }
    Span::unknown()
}

/// Where one of some worlds stands that a text names.
fn place_of_worlds(graph: &Graph, text: &[u8], worlds: &Names<WorldId>) -> Span
    ensures { result ≡ first_known (map (place_in_world graph.now text.now) worlds.now) }
{
    for (name, id) in worlds.iter() {
        let span = place_in_world(graph, text, name, *id);
        if span.is_known() {
            return span;
        }
    }
    Span::unknown()
}

/// Where a package has what a message names, if the message names the package.
fn place_in_package(
    alloc: Global,
    graph: &Graph,
    message: &[u8],
    home: &Package,
) -> Result<Span, AllocError>
    ensures { IfOk result
        (λ span. span ≡ place_in_package graph.now message.now home.now) }
{
    let name = &home.name;
    let text = format!(in alloc; "{name}")?;
    let front = "failed to merge package `";
    let end = "` into existing copy: ";
    let Some(rest) = rest_behind(message, front, &text, end) else {
        return Ok(Span::unknown());
    };
    let span = place_of_interfaces(graph, rest, &home.interfaces);
    if span.is_known() {
        Ok(span)
    } else {
        Ok(place_of_worlds(graph, rest, &home.worlds))
    }
}

/// Where a graph has what a merge refuses.
pub fn merge_place(alloc: Global, graph: &Graph, message: &str) -> Result<Span, AllocError>
    ensures { IfOk result (λ span. span ≡ merge_place graph.now message.now) }
{
    for home in graph.packages.as_slice() {
        let span = place_in_package(alloc, graph, message.as_bytes(), home)?;
        if span.is_known() {
            return Ok(span);
        }
    }
    Ok(Span::unknown())
}

/// The id text of an interface, where it has a name and a package.
fn id_of(alloc: Global, graph: &Graph, interface: &Interface) -> Result<Option<String>, AllocError>
    ensures { IfOk result (λ text. option_map string_bytes text ≡ id_of graph.now interface.now) }
{
    let Some(name) = &interface.name else {
        return Ok(None);
    };
    let Some(owner) = interface.package else {
        return Ok(None);
    };
    match graph.id_of_name(alloc, owner, name.as_str()) {
        Ok(text) => Ok(Some(text)),
        Err(_) => Err(AllocError),
    }
}

/// Where the older or the newer of two interfaces has what a text names, if the text names the newer one.
fn newer_place(
    alloc: Global,
    graph: &Graph,
    newer: bool,
    old: &Interface,
    text: &[u8],
    new: &Interface,
) -> Result<Span, AllocError>
    ensures { IfOk result
        (λ span. span ≡ newer_place graph.now newer old.now text.now new.now) }
{
    let Some(id) = id_of(alloc, graph, new)? else {
        return Ok(Span::unknown());
    };
    let end = "`, was this semver-compatible update not semver compatible?: ";
    match rest_behind(text, "", &id, end) {
        Some(rest) => Ok(item_place(graph, rest, if newer { new } else { old })),
        None => Ok(Span::unknown()),
    }
}

/// The same of one of the graph's interfaces, if a text names it.
fn place_of_newer(
    alloc: Global,
    graph: &Graph,
    newer: bool,
    old: &Interface,
    text: &[u8],
) -> Result<Span, AllocError>
    ensures { IfOk result
        (λ span. span ≡ place_by_newer graph.now newer old.now text.now) }
{
    for new in graph.interfaces.as_slice() {
        let span = newer_place(alloc, graph, newer, old, text, new)?;
        if span.is_known() {
            return Ok(span);
        }
    }
    Ok(Span::unknown())
}

/// The same of a message that names both.
fn older_place(
    alloc: Global,
    graph: &Graph,
    newer: bool,
    message: &[u8],
    old: &Interface,
) -> Result<Span, AllocError>
    ensures { IfOk result (λ span. span ≡ older_place graph.now newer message.now old.now) }
{
    let Some(id) = id_of(alloc, graph, old)? else {
        return Ok(Span::unknown());
    };
    match rest_behind(message, "failed to upgrade `", &id, "` to `") {
        Some(rest) => place_of_newer(alloc, graph, newer, old, rest),
        None => Ok(Span::unknown()),
    }
}

/// Where a graph has what an upgrade refuses, in the older interface or the newer one.
pub fn upgrade_place(
    alloc: Global,
    graph: &Graph,
    newer: bool,
    message: &str,
) -> Result<Span, AllocError>
    ensures { IfOk result (λ span. span ≡ upgrade_place graph.now newer message.now) }
{
    for old in graph.interfaces.as_slice() {
        let span = older_place(alloc, graph, newer, message.as_bytes(), old)?;
        if span.is_known() {
            return Ok(span);
        }
    }
    Ok(Span::unknown())
}
