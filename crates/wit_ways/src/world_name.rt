//! Worlds by name, their labels, and where they stand.
ghost use Rattle.std.specs.Prelude.{◌≡◌, IfOk, option_copied, ◌++◌, OnOk};
ghost use Rattle.wit_ways.specs.Worlds.{find_world, graph_worlds, label_text, same_span, world_at, world_place};

use crate::arrow::{item_text, placed};
use crate::graph_arrow::home_of;
use std::alloc::{AllocError, Global};
use wit_data::{Items, PackageName, Span, Text, TryClone, World};
use wit_graph_data::Graph;
use wit_values::try_clone_two;

/// A world by the name of its package and its own.
#[derive(Drop)]
pub struct WorldName {
    pub package: PackageName,
    pub name: Text,
}

/// Where a world stands.
#[derive(Drop)]
pub struct WorldPlace {
    pub span: Span,
    pub world: WorldName,
}

impl TryClone for WorldName {
    fn try_clone(&self) -> Result<WorldName, AllocError> {
        let (package, name) = try_clone_two(&self.package, &self.name)?;
        Ok(WorldName { package, name })
    }
}

/// `namespace:package/world.label`, and `@version` where there is one.
pub fn label_text(alloc: Global, world: &WorldName, label: &str) -> Result<Text, AllocError>
    ensures { IfOk result (λ text. text ≡ label_text world.now label.now) }
{
    let name = &world.name;
    let joined = format!(in alloc; "{name}.{label}")?;
    item_text(alloc, &world.package, &joined)
}

/// Where the worlds of a graph stand, so many positions further on.
pub fn graph_worlds(
    alloc: Global,
    offset: u32,
    graph: &Graph,
) -> Result<Items<WorldPlace>, AllocError>
    ensures { IfOk result (λ worlds. worlds ≡ graph_worlds offset graph.now) }
{
    let mut worlds = Items::new(alloc);
    for world in graph.worlds.as_slice() {
        if let Some(place) = world_place(offset, graph, world)? {
            worlds.push(place)?;
        }
    }
    Ok(worlds)
}

/// Where a world of a graph stands, if it is in a package.
fn world_place(offset: u32, graph: &Graph, world: &World) -> Result<Option<WorldPlace>, AllocError>
    ensures { IfOk result (λ place. place ≡ world_place offset graph.now world.now) }
{
    let Some(home) = home_of(graph, world.package) else {
        return Ok(None);
    };
    let (package, name) = try_clone_two(home, &world.name)?;
    let span = placed(world.span, offset);
    let world = WorldName { package, name };
    Ok(Some(WorldPlace { span, world }))
}

/// The world that stands at a span: of a graph, or else of what comes; none where the span is unknown.
pub fn world_at(
    alloc: Global,
    graph: &Graph,
    coming: &[WorldPlace],
    span: Span,
) -> Result<Option<WorldName>, AllocError>
    ensures { IfOk result (λ world. world ≡ world_at graph.now coming.now span) }
{
    let worlds = graph_worlds(alloc, 0, graph)?;
    match find_world(worlds.as_slice(), span).or(find_world(coming, span)) {
        Some(world) => Ok(Some(world.try_clone()?)),
        None => Ok(None),
    }
}

/// The first of some worlds that stands at a span.
fn find_world(worlds: &[WorldPlace], span: Span) -> Option<&WorldName>
    ensures { option_copied result ≡ find_world worlds.now span }
{
    let place = worlds.iter().find(|place| stands_at(place, span))?;
    Some(&place.world)
}

/// Whether a world stands at a span, which is known.
fn stands_at(place: &WorldPlace, span: Span) -> bool
    ensures { result ≡ same_span span place.now.span }
{
    span.is_known() && place.span == span
}
