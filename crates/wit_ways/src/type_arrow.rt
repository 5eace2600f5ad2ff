//! Which type of a graph refers to which.
ghost use Rattle.std.specs.Prelude.{◌≡◌, ◌++◌, IfOk, OnOk, map};
ghost use Rattle.wit_data.specs.Kind.{referred};
ghost use Rattle.wit_ways.specs.TypeArrows.{member_text, reference_to, references_of, type_arrows, type_text};

use crate::arrow::{Arrow, item_text};
use crate::graph_arrow::home_of;
use std::alloc::{AllocError, Global};
use wit_data::{InterfaceId, Items, Text, TypeDef, TypeId, TypeOwner, referred};
use wit_graph_data::Graph;

/// Which type of a graph refers to which, each where the one that does stands.
pub fn type_arrows(alloc: Global, graph: &Graph) -> Result<Items<Arrow>, AllocError>
    ensures { IfOk result (λ arrows. arrows ≡ type_arrows graph.now) }
{
    let mut arrows = Items::new(alloc);
    for index in 0..graph.types.len() {
        let id = TypeId::from_index(index);
        add_type(alloc, graph, id, &mut arrows)?;
    }
    Ok(arrows)
}

/// Notes what the type of an id refers to.
fn add_type(
    alloc: Global,
    graph: &Graph,
    id: TypeId,
    arrows: &mut Items<Arrow>,
) -> Result<(), AllocError>
    ensures { OnOk result (arrows.new ≡ arrows.old ++ references_of graph.now id) }
{
    match graph.types.get(id.index()) {
        Some(def) => add_references(alloc, graph, id, def, arrows),
        None => Ok(()),
    }
}

/// Notes what a type refers to.
fn add_references(
    alloc: Global,
    graph: &Graph,
    id: TypeId,
    def: &TypeDef,
    arrows: &mut Items<Arrow>,
) -> Result<(), AllocError>
    ensures { OnOk result (arrows.new
        ≡ arrows.old ++ map (reference_to graph.now id def.now) (referred def.now.kind)) }
{
    let others = referred(alloc, &def.kind)?;
    for other in others.as_slice() {
        let arrow = reference_to(alloc, graph, id, def, *other)?;
        arrows.push(arrow)?;
    }
    Ok(())
}

/// That a type refers to another.
fn reference_to(
    alloc: Global,
    graph: &Graph,
    id: TypeId,
    def: &TypeDef,
    other: TypeId,
) -> Result<Arrow, AllocError>
    ensures { IfOk result (λ arrow. arrow ≡ reference_to graph.now id def.now other) }
{
    let from = type_text(alloc, graph, id)?;
    let to = type_text(alloc, graph, other)?;
    let span = def.span;
    Ok(Arrow { from, to, span })
}

/// A type: by its name in its interface, or else by its number.
pub fn type_text(alloc: Global, graph: &Graph, id: TypeId) -> Result<Text, AllocError>
    ensures { IfOk result (λ text. text ≡ type_text graph.now id) }
{
    let named = match graph.types.get(id.index()) {
        Some(
            TypeDef {
                name: Some(name),
                owner: TypeOwner::Interface(home),
                ..
            },
        ) => member_text(alloc, graph, name, *home)?,
        _ => None,
    };
    match named {
        Some(text) => Ok(text),
        None => {
            let index = id.index();
            Ok(Text::from_string(format!(in alloc; "type {index}")?))
        }
    }
}

/// `namespace:package/interface.type`, and `@version` where there is one.
fn member_text(
    alloc: Global,
    graph: &Graph,
    name: &Text,
    id: InterfaceId,
) -> Result<Option<Text>, AllocError>
    ensures { IfOk result (λ text. text ≡ member_text graph.now name.now id) }
{
    let Some(interface) = graph.interfaces.get(id.index()) else {
        return Ok(None);
    };
    let Some(own) = &interface.name else {
        return Ok(None);
    };
    let Some(home) = home_of(graph, interface.package) else {
        return Ok(None);
    };
    let joined = format!(in alloc; "{own}.{name}")?;
    Ok(Some(item_text(alloc, home, &joined)?))
}
