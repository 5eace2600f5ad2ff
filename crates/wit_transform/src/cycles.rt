//! Interfaces, types and packages that depend on themselves are refused.
ghost use Rattle.std.specs.Prelude.{◌≡◌, ◌⊎◌, ◌<◌, All, IfErr, IfOk, IsSome, None, OnOk, length};
ghost use Rattle.wit_elaboration.specs.Elaboration.{graph_uses};
ghost use Rattle.wit_graph_data.specs.IdText.{interface_id_at};
ghost use Rattle.wit_graph_data.specs.declared.cause.Cause.TheVariants as cause;
ghost use Rattle.wit_graph_data.specs.declared.error_kind.ResolveErrorKind.TheVariants.{OutOfMemory, Semantic};
ghost use Rattle.wit_data.specs.Kind.{type_references};
ghost use Rattle.wit_digraph.specs.Relation.{IsAcyclic, IsInRange};
ghost use Rattle.wit_transform.specs.steps.Reasons.{CyclesHaveNames, ElaborationCause, IsInterfaceCycleError, IsSomeNamed, IsTypeCycleError, UsedHaveNames};
ghost use Rattle.wit_elaboration.specs.steps.Parts.{graph_package_uses, type_cycle_text};

use crate::round::find_round;
use std::alloc::{AllocError, Global};
use wit_data::{InterfaceId, Span, TypeDef, type_references, uses_of};
use wit_digraph::find_cycle;
use wit_graph_data::{Cause, Graph, ResolveError, ResolveErrorKind, ResolveResult};
use wit_queries::package_deps::package_uses;
use wit_values::{Text, TryClone};

/// Refuses interfaces of which one uses itself, through whatever others (22). One on the cycle is told, by its id text.
pub(crate) fn check_interfaces(alloc: Global, graph: &Graph) -> ResolveResult<()>
    requires in_range { IsInRange (graph_uses graph.now) }
    requires named { UsedHaveNames graph.now }
    ensures ok { OnOk result (IsAcyclic (graph_uses graph.now)) }
    ensures cause { IfErr result (λ e. (e ≡ OutOfMemory) ⊎ ElaborationCause graph.now e) }
{
    let uses = uses_of(alloc, graph.types.as_slice(), graph.interfaces.as_slice())?;
    match find_cycle(alloc, uses.as_slice())? {
        Some(found) => Err(interface_cycle(alloc, graph, found.user)?),
        None => Ok(()),
    }
}

/// The error that tells of an interface that it uses itself.
fn interface_cycle(alloc: Global, graph: &Graph, interface: usize) -> ResolveResult<ResolveError>
    requires { IsSome (interface_id_at graph.now.packages graph.now.interfaces interface) }
    ensures error { IfOk result (IsInterfaceCycleError graph.now interface) }
    ensures memory { IfErr result (λ e. e ≡ OutOfMemory) }
{
    match graph.id_of(alloc, InterfaceId::from_index(interface))? {
        Some(id) => {
            let message = format!(in alloc; "interface `{id}` would depend on itself")?;
            Ok(ResolveErrorKind::Semantic {
                span: Span::unknown(),
                message: Text::from_string(message),
                cause: Cause::InterfaceCycle,
            }
            .into())
        }
        None => unreachable!(),
    }
}

/// Refuses packages of which one depends on itself, through whatever others (6). One on the cycle is told.
pub(crate) fn check_packages(alloc: Global, graph: &Graph) -> ResolveResult<()>
    requires { IsInRange (graph_package_uses graph.now) }
    ensures ok { OnOk result (IsAcyclic (graph_package_uses graph.now)) }
    ensures cause { IfErr result (λ e. (e ≡ OutOfMemory) ⊎ ElaborationCause graph.now e) }
{
    let uses = package_uses(alloc, graph)?;
    match find_cycle(alloc, uses.as_slice())? {
        Some(found) => Err(ResolveErrorKind::PackageCycle {
            span: Span::unknown(),
            package: graph.packages.at(found.user).name.try_clone()?,
        }
        .into()),
        None => Ok(()),
    }
}

/// Refuses types of which one refers to itself, through whatever others (23). One with a name on the cycle is told.
pub(crate) fn check_types(alloc: Global, graph: &Graph) -> ResolveResult<()>
    requires in_range { IsInRange (type_references graph.now.types) }
    requires named { CyclesHaveNames graph.now.types }
    ensures ok { OnOk result (IsAcyclic (type_references graph.now.types)) }
    ensures cause { IfErr result (λ e. (e ≡ OutOfMemory) ⊎ ElaborationCause graph.now e) }
{
    let types = graph.types.as_slice();
    let references = type_references(alloc, types)?;
    match find_cycle(alloc, references.as_slice())? {
        Some(found) => {
            let ids = find_round(alloc, references.as_slice(), found)?;
            Err(type_cycle(alloc, types, ids.as_slice())?)
        }
        None => Ok(()),
    }
}

/// The error that tells of the first type with a name that it refers to itself.
fn type_cycle(alloc: Global, types: &[TypeDef], ids: &[usize]) -> Result<ResolveError, AllocError>
    requires in_range { All (λ id. id < length types.now) ids.now }
    requires named { IsSomeNamed types.now ids.now }
    ensures { IfOk result (IsTypeCycleError types.now ids.now) }
{
    for id in ids {
        if let Some(name) = &types[*id].name {
            let error = refers_to_itself(alloc, name)?;
            return Ok(error);
        }
    }
    unreachable!()
}

/// 23: the type of this name refers to itself.
fn refers_to_itself(alloc: Global, name: &Text) -> Result<ResolveError, AllocError>
    ensures { IfOk result (λ e. e ≡ Semantic None (type_cycle_text name.now) cause.TypeCycle) }
{
    let message = format!(in alloc; "type `{name}` would refer to itself")?;
    Ok(ResolveErrorKind::Semantic {
        span: Span::unknown(),
        message: Text::from_string(message),
        cause: Cause::TypeCycle,
    }
    .into())
}
