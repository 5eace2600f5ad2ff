//! Types, interfaces and packages that lead back to themselves.
ghost use Rattle.std.specs.Prelude.{IfOk};
ghost use Rattle.wit_data.specs.Kind.{type_references};
ghost use Rattle.wit_data.specs.Uses.{uses_of};
ghost use Rattle.wit_digraph.specs.Relation.{IsInRange};
ghost use Rattle.wit_graph_data.specs.Queries.{package_uses};
ghost use Rattle.wit_graph_faults.specs.Faults.{FindsOnCycle};
ghost use Rattle.wit_graph_faults.specs.declared.place.GraphPlace.TheVariants as place;

use crate::place::GraphPlace;
use std::alloc::{AllocError, Global};
use wit_data::{Interface, InterfaceId, PackageId, TypeDef, TypeId, type_references, uses_of};
use wit_graph_data::Graph;
use wit_queries::package_deps::package_uses;
use wit_shape::uses::first_on_cycle;

/// The first type with which those up to it refer to themselves, through whatever others of them.
pub(crate) fn first_type(alloc: Global, types: &[TypeDef]) -> Result<Option<GraphPlace>, AllocError>
    requires { IsInRange (type_references types.now) }
    ensures { IfOk result (λ found. FindsOnCycle place.Type_ (type_references types.now) found) }
{
    let references = type_references(alloc, types)?;
    let found = first_on_cycle(alloc, references.as_slice())?;
    Ok(found.map(|index| GraphPlace::Type_(TypeId::from_index(index))))
}

/// The same of interfaces.
pub(crate) fn first_interface(
    alloc: Global,
    types: &[TypeDef],
    interfaces: &[Interface],
) -> Result<Option<GraphPlace>, AllocError>
    requires { IsInRange (uses_of types.now interfaces.now) }
    ensures { IfOk result
        (λ found. FindsOnCycle place.Interface (uses_of types.now interfaces.now) found) }
{
    let uses = uses_of(alloc, types, interfaces)?;
    let found = first_on_cycle(alloc, uses.as_slice())?;
    Ok(found.map(|index| GraphPlace::Interface(InterfaceId::from_index(index))))
}

/// The same of packages.
pub(crate) fn first_package(alloc: Global, graph: &Graph) -> Result<Option<GraphPlace>, AllocError>
    requires { IsInRange
        (package_uses graph.now.types graph.now.interfaces graph.now.worlds graph.now.packages) }
    ensures { IfOk result (λ found.
        FindsOnCycle place.Package
        (package_uses graph.now.types graph.now.interfaces graph.now.worlds graph.now.packages)
        found) }
{
    let uses = package_uses(alloc, graph)?;
    let found = first_on_cycle(alloc, uses.as_slice())?;
    Ok(found.map(|index| GraphPlace::Package(PackageId::from_index(index))))
}
