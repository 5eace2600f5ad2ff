//! The search for the first clause of validity that a graph breaks: none where it is valid.
ghost use Rattle.std.specs.Prelude.{◌≡◌, ◌↔◌, IfErr, IfOk, IsNone, Some};
ghost use Rattle.wit_elaboration.specs.Valid.{IsValid};
ghost use Rattle.wit_graph_data.specs.declared.error_kind.ResolveErrorKind.TheVariants.{OutOfMemory};
ghost use Rattle.wit_graph_faults.specs.Faults.{IsGraphFault, IsValidBefore, FindsBreach};
ghost use Rattle.wit_graph_faults.specs.declared.fault.GraphFault.{GraphFault};
ghost use Rattle.wit_shape.specs.First.{Finds};

use crate::clause::GraphClause;
use crate::fault::GraphFault;
use crate::keys::keys_differ;
use crate::place::GraphPlace;
use crate::{cycles, names, shared, tables, types, worlds};
use std::alloc::Global;
use wit_graph_data::{Graph, ResolveResult};

/// The first clause of validity that a graph breaks, in the order of [`GraphClause::ALL`], and the first thing that breaks
/// it, in the order of the graph's lists. None where the graph is valid, as `is_valid` of `wit_validity` tells.
///
/// Of things that lead back to themselves it is the first with which those up to it do, through whatever others of them.
///
/// Any graph may be asked. It takes the time of `is_valid`, but where things lead back to themselves: then that times the
/// logarithm of their number. The only refusal is want of memory (28).
pub fn find_graph_fault(alloc: Global, graph: &Graph) -> ResolveResult<Option<GraphFault>>
    ensures none { IfOk result (λ found. IsNone found ↔ IsValid graph.now) }
    ensures some { IfOk result (λ found.
        (fault : GraphFault) → (found ≡ Some fault) ↔ IsGraphFault graph.now fault) }
    ensures memory { IfErr result (λ e. e ≡ OutOfMemory) }
{
    first_fault(alloc, graph)
}

/// The same, clause by clause.
fn first_fault(alloc: Global, graph: &Graph) -> ResolveResult<Option<GraphFault>>
    ensures found { IfOk result
        (λ found. Finds (IsValid graph.now) (IsGraphFault graph.now) found) }
    ensures memory { IfErr result (λ e. e ≡ OutOfMemory) }
{
    keys_differ(graph);
    for clause in GraphClause::ALL {
        if let Some(place) = find_place(alloc, graph, clause)? {
            return Ok(Some(GraphFault { clause, place }));
        }
    }
    Ok(None)
}

/// The first thing that breaks a clause, of a graph that keeps those before it.
fn find_place(
    alloc: Global,
    graph: &Graph,
    clause: GraphClause,
) -> ResolveResult<Option<GraphPlace>>
    requires { IsValidBefore graph.now clause }
    ensures found { IfOk result (λ found. FindsBreach graph.now clause found) }
    ensures memory { IfErr result (λ e. e ≡ OutOfMemory) }
{
    let types = graph.types.as_slice();
    let interfaces = graph.interfaces.as_slice();
    let worlds = graph.worlds.as_slice();
    let packages = graph.packages.as_slice();
    match clause {
        GraphClause::PackageNamesOwn => Ok(tables::own_names(packages, &graph.package_names)),
        GraphClause::PackageNamesListed => Ok(tables::listed(packages, &graph.package_names)),
        GraphClause::TablesInterfacesListed => Ok(tables::interfaces_listed(packages, interfaces)),
        GraphClause::TablesWorldsListed => Ok(tables::worlds_listed(packages, worlds)),
        GraphClause::TablesInterfaces => Ok(tables::interfaces(packages, interfaces)),
        GraphClause::TablesWorlds => Ok(tables::worlds(packages, worlds)),
        GraphClause::NamesNamespaces => Ok(names::namespaces(packages)),
        GraphClause::NamesPackages => Ok(names::packages(packages)),
        GraphClause::NamesVersions => Ok(names::versions(alloc, packages)?),
        GraphClause::NamesInterfaces => Ok(shared::interface_names(interfaces)),
        GraphClause::Known => Ok(types::known(types)),
        GraphClause::OwnersListed => Ok(shared::listed(interfaces, worlds, types)?),
        GraphClause::OwnersOwnTypes => Ok(shared::own_types(types, interfaces)),
        GraphClause::OwnersFunctions => Ok(shared::functions(interfaces)),
        GraphClause::ReferencesAliases => Ok(shared::aliases(types, interfaces)),
        GraphClause::ReferencesUnnamed => Ok(shared::unnamed(types)),
        GraphClause::TypesThere => Ok(types::there(alloc, types)?),
        GraphClause::Types => Ok(cycles::first_type(alloc, types)?),
        GraphClause::Uses => Ok(cycles::first_interface(alloc, types, interfaces)?),
        GraphClause::ReferencesOwnTypes => Ok(shared::refers_to_own(alloc, types)?),
        GraphClause::ReferencesOwnFunctions => Ok(shared::functions_use_own(
            alloc, types, interfaces,
        )?),
        GraphClause::WorldsImports => Ok(shared::imports(interfaces, types, worlds)),
        GraphClause::WorldsExports => Ok(shared::exports(interfaces, worlds)),
        GraphClause::WorldsImportedFunctions => Ok(shared::imports_use_own(alloc, types, worlds)?),
        GraphClause::WorldsExportedFunctions => Ok(shared::exports_use_own(alloc, types, worlds)?),
        GraphClause::WorldsOnce => Ok(shared::once(alloc, interfaces, worlds)?),
        GraphClause::WorldsOwnImports => Ok(worlds::own_imports(interfaces, worlds)),
        GraphClause::WorldsOwnExports => Ok(worlds::own_exports(interfaces, worlds)),
        GraphClause::WorldsIncludes => Ok(worlds::includes(worlds)),
        GraphClause::Packages => Ok(cycles::first_package(alloc, graph)?),
        GraphClause::Canonical => worlds::elaborated(alloc, graph),
    }
}
