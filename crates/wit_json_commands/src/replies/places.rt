//! Where packages of a graph stand. A package has no span: its interfaces and worlds have.
ghost use Rattle.std.specs.Prelude.{◌≡◌, map};
ghost use Rattle.wit_json_commands.specs.Places.{first_known, interface_span, package_span, world_span};

use wit_data::{InterfaceId, Names, PackageName, Span, WorldId};
use wit_graph_data::Graph;

/// The first known span among those of the interfaces of a package, and then of its worlds; unknown where there is none.
pub fn package_span(graph: &Graph, name: &PackageName) -> Span
    ensures { result ≡ package_span graph.now name.now }
{
    let Some(id) = graph.package_names.get(name) else {
        return Span::unknown();
    };
    let Some(package) = graph.packages.get(id.index()) else {
        return Span::unknown();
    };
    let span = span_of_interfaces(graph, &package.interfaces);
    if span.is_known() {
        return span;
    }
    span_of_worlds(graph, &package.worlds)
}

/// The span of a world, where it is there.
pub fn world_span(graph: &Graph, id: WorldId) -> Span
    ensures { result ≡ world_span graph.now id }
{
    match graph.worlds.get(id.index()) {
        Some(world) => world.span,
        None => Span::unknown(),
    }
}

/// The first known span among those of interfaces.
fn span_of_interfaces(graph: &Graph, interfaces: &Names<InterfaceId>) -> Span
    ensures { result ≡ first_known (map (λ e. interface_span graph.now e.1) interfaces.now) }
{
    for (_, id) in interfaces.iter() {
        if let Some(interface) = graph.interfaces.get(id.index()) {
            if interface.span.is_known() {
                return interface.span;
            }
        }
    }
    Span::unknown()
}

/// The first known span among those of worlds.
fn span_of_worlds(graph: &Graph, worlds: &Names<WorldId>) -> Span
    ensures { result ≡ first_known (map (λ e. world_span graph.now e.1) worlds.now) }
{
    for (_, id) in worlds.iter() {
        if let Some(world) = graph.worlds.get(id.index()) {
            if world.span.is_known() {
                return world.span;
            }
        }
    }
    Span::unknown()
}
