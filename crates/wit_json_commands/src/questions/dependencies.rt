//! What packages and interfaces depend on.
ghost use Rattle.std.specs.Prelude.{◌≡◌, ◌<◌, IfOk, length};
ghost use Rattle.wit_elaboration.specs.Valid.{IsValid};
ghost use Rattle.wit_graph_data.specs.Named.{package_named};
ghost use Rattle.wit_graph_data.specs.Queries.{interface_direct_deps, package_direct_deps, topological_packages};
ghost use Rattle.wit_json_commands.specs.Tells.{found, interface_id_named};
ghost use Rattle.wit_json_commands.specs.declared.replies.answers.Answer.TheVariants as answers;

use super::names::interface_named;
use crate::replies::Answer;
use std::alloc::{AllocError, Global};
use wit_data::{InterfaceId, Items, PackageId, PackageName, Text};
use wit_graph_data::{Graph, ResolveResult};
use wit_queries::interface_deps::interface_direct_deps;
use wit_queries::package_deps::{package_direct_deps, topological_packages};

/// On which packages the package of a name depends directly.
pub fn package_dependencies(
    alloc: Global,
    graph: &Graph,
    package: &PackageName,
) -> ResolveResult<Answer>
    requires { IsValid graph.now }
    ensures { IfOk result (λ it.
        it
        ≡ found (λ p. answers.Packages (package_direct_deps graph.now.types graph.now.interfaces
        graph.now.worlds graph.now.packages p)) (package_named graph.now «package».now)) }
{
    match graph.package_names.get(package) {
        Some(id) => Ok(Answer::Packages(packages_of(alloc, graph, *id)?)),
        None => Ok(Answer::NotFound),
    }
}

/// The packages that a package depends on.
fn packages_of(alloc: Global, graph: &Graph, id: PackageId) -> Result<Items<PackageId>, AllocError>
    requires { id < length graph.now.packages }
    ensures { IfOk result (λ ids.
        ids
        ≡ package_direct_deps graph.now.types graph.now.interfaces graph.now.worlds
        graph.now.packages id) }
{
    let mut ids = Items::new(alloc);
    for other in package_direct_deps(graph, id) {
        ids.push(other)?;
    }
    Ok(ids)
}

/// Which interfaces the interface of a name in a package uses directly.
pub fn interface_dependencies(
    alloc: Global,
    graph: &Graph,
    package: &PackageName,
    interface: &Text,
) -> ResolveResult<Answer>
    requires { IsValid graph.now }
    ensures { IfOk result (λ it.
        it
        ≡ found
        (λ i. answers.Interfaces (interface_direct_deps graph.now.types graph.now.interfaces i))
        (interface_id_named graph.now «package».now interface.now)) }
{
    match interface_named(graph, package, interface.as_str()) {
        Some(id) => Ok(Answer::Interfaces(interfaces_of(alloc, graph, id)?)),
        None => Ok(Answer::NotFound),
    }
}

/// The interfaces that an interface uses.
fn interfaces_of(
    alloc: Global,
    graph: &Graph,
    id: InterfaceId,
) -> Result<Items<InterfaceId>, AllocError>
    requires { id < length graph.now.interfaces }
    ensures { IfOk result
        (λ ids. ids ≡ interface_direct_deps graph.now.types graph.now.interfaces id) }
{
    let mut ids = Items::new(alloc);
    for other in interface_direct_deps(graph, id) {
        ids.push(other)?;
    }
    Ok(ids)
}

/// All packages, each after those that it depends on.
pub fn package_order(alloc: Global, graph: &Graph) -> ResolveResult<Answer>
    requires { IsValid graph.now }
    ensures { IfOk result (λ it.
        it
        ≡ answers.Packages (topological_packages graph.now.types graph.now.interfaces
        graph.now.worlds graph.now.packages)) }
{
    let ids = topological_packages(alloc, graph)?;
    Ok(Answer::Packages(Items::from_vec(ids)))
}
