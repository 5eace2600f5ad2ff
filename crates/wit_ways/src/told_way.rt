//! The way of a refusal: how what it names leads back to itself, or past what isn't exported to what is.
ghost use Rattle.std.specs.Prelude.{◌≡◌, ◌++◌, ℕ, IfOk, List, MatchOption, false, bytes_eq};
ghost use Rattle.std.specs.Option.{option_map_or};
ghost use Rattle.wit_elaboration.specs.steps.Parts.{interface_cycle_text, type_cycle_text};
ghost use Rattle.wit_ways.specs.Asked.{asked_graph, known_arrows};
ghost use Rattle.wit_ways.specs.TypeArrows.{type_arrows};
ghost use Rattle.wit_ways.specs.Told.{IsPackageRound, IsRoundAt, IsTold, IsTypeRound};
ghost use Rattle.wit_ways.specs.Ways.{IsRound};

use crate::arrow::{Arrow, package_text};
use crate::asked::{Asked, asked_graph, known_arrows, made_or_known};
use crate::conflict::conflict_way;
use crate::type_arrow::{type_arrows, type_text};
use crate::way::find_way;
use std::alloc::{AllocError, Global};
use wit_data::{Items, PackageName, Text, TypeDef, TypeId};
use wit_graph_data::Graph;
use wit_resolve_graph::{Cause, Resolve, ResolveErrorKind};
use wit_values::NameSet;

/// The way of a refusal, or none: of a cycle (6, 22, 23) back to what it names, of exports in conflict (4) to what is exported.
/// The graph is as it was before the command, and the ways' spans are those of its sources with what came.
pub fn way_of(
    alloc: Global,
    resolve: &Resolve,
    asked: &Asked,
    kind: &ResolveErrorKind,
) -> Result<Items<Arrow>, AllocError>
    ensures { IfOk result (λ way. IsTold resolve.now asked.now kind.now way) }
{
    match kind {
        ResolveErrorKind::PackageCycle { package, .. } => {
            package_round(alloc, resolve, asked, package)
        }
        ResolveErrorKind::InvalidTransitiveDependency { span, name } => {
            conflict_way(alloc, resolve, asked, *span, name)
        }
        ResolveErrorKind::Semantic {
            message,
            cause: Cause::InterfaceCycle,
            ..
        } => interface_round(alloc, resolve, asked, message.as_str()),
        ResolveErrorKind::Semantic {
            message,
            cause: Cause::TypeCycle,
            ..
        } => type_round(alloc, resolve, asked, message.as_str()),
        _ => Ok(Items::new(alloc)),
    }
}

/// A way from a name back to it.
fn round(alloc: Global, arrows: &[Arrow], name: &Text) -> Result<Items<Arrow>, AllocError>
    ensures { IfOk result (λ way. IsRound arrows.now name.now way) }
{
    let mut goals = NameSet::new(alloc);
    goals.insert(alloc, name.as_str())?;
    find_way(alloc, arrows, name, true, &goals)
}

/// A way from a package back to it: where packages come among these, else among those of the graphs.
fn package_round(
    alloc: Global,
    resolve: &Resolve,
    asked: &Asked,
    package: &PackageName,
) -> Result<Items<Arrow>, AllocError>
    ensures { IfOk result (λ way. IsPackageRound resolve.now asked.now «package».now way) }
{
    let name = package_text(alloc, package)?;
    match asked {
        Asked::Push(coming) => round(alloc, coming.dependencies.as_slice(), &name),
        _ => {
            let arrows = known_arrows(alloc, resolve, asked)?;
            round(alloc, arrows.as_slice(), &name)
        }
    }
}

/// A way from the interface that the message of a cycle names back to it.
fn interface_round(
    alloc: Global,
    resolve: &Resolve,
    asked: &Asked,
    message: &str,
) -> Result<Items<Arrow>, AllocError>
    ensures { IfOk result (λ way.
        (name : List ℕ) → message.now ≡ interface_cycle_text name
        → IsRound (known_arrows resolve.now asked.now) name way) }
{
    let Some(name) = between(message, "interface `", "` would depend on itself") else {
        return Ok(Items::new(alloc));
    };
    let name = Text::try_from_str(alloc, name)?;
    let arrows = known_arrows(alloc, resolve, asked)?;
    round(alloc, arrows.as_slice(), &name)
}

/// A way from a type of the name that the message of a cycle tells back to it.
fn type_round(
    alloc: Global,
    resolve: &Resolve,
    asked: &Asked,
    message: &str,
) -> Result<Items<Arrow>, AllocError>
    ensures { IfOk result (λ way.
        (name : List ℕ) → message.now ≡ type_cycle_text name
        → IsTypeRound (asked_graph resolve.now asked.now)
        (type_arrows (asked_graph resolve.now asked.now)) name way) }
{
    let Some(name) = between(message, "type `", "` would refer to itself") else {
        return Ok(Items::new(alloc));
    };
    let made = asked_graph(alloc, resolve, asked)?;
    let graph = made_or_known(&made, resolve);
    let arrows = type_arrows(alloc, graph)?;
    first_round(alloc, graph, arrows.as_slice(), name)
}

/// A way from the first type of a name that leads back to itself.
fn first_round(
    alloc: Global,
    graph: &Graph,
    arrows: &[Arrow],
    name: &str,
) -> Result<Items<Arrow>, AllocError>
    ensures { IfOk result (λ way. IsTypeRound graph.now arrows.now name.now way) }
{
    for index in 0..graph.types.len() {
        let way = round_at(alloc, graph, arrows, name, TypeId::from_index(index))?;
        if !way.is_empty() {
            return Ok(way);
        }
    }
    Ok(Items::new(alloc))
}

/// A way from a type back to it, where it has this name.
fn round_at(
    alloc: Global,
    graph: &Graph,
    arrows: &[Arrow],
    name: &str,
    id: TypeId,
) -> Result<Items<Arrow>, AllocError>
    ensures { IfOk result (λ way. IsRoundAt graph.now arrows.now name.now id way) }
{
    match graph.types.get(id.index()) {
        Some(def) if is_called(def, name) => {
            let from = type_text(alloc, graph, id)?;
            round(alloc, arrows, &from)
        }
        _ => Ok(Items::new(alloc)),
    }
}

/// Whether a type has this name.
fn is_called(def: &TypeDef, name: &str) -> bool
    ensures { result ≡ option_map_or (bytes_eq name.now) def.now.name false }
{
    match &def.name {
        Some(own) => name == own.as_str(),
        None => false,
    }
}

/// What stands between a front and an end.
fn between<'a>(text: &'a str, front: &str, end: &str) -> Option<&'a str>
    ensures { MatchOption result ((name : List ℕ) → text.now ≡ front.now ++ (name ++ end.now) → ⊥)
        (λ name. text.now ≡ front.now ++ (name.now ++ end.now)) }
{
    let rest = text.strip_prefix(front)?;
    rest.strip_suffix(end)
}
