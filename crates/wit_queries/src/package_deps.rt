//! The packages that a package depends on, and the order of all packages.
ghost use Rattle.std.specs.Prelude.{◌≡◌, ◌∷◌, [], ◌<◌, IfErr, IfOk, MatchOption, length};
ghost use Rattle.std.specs.Iterator.{YieldsFirst, item_count};
ghost use Rattle.std.specs.List.{range_with_len};
ghost use Rattle.wit_graph_data.specs.Queries.{topological_packages, package_direct_deps, package_interfaces, package_uses};
ghost use Rattle.wit_graph_data.specs.declared.error_kind.ResolveErrorKind.TheVariants.{OutOfMemory};
ghost use Rattle.wit_queries.specs.RemainingUses.{other_packages};
ghost use Rattle.wit_digraph.specs.Relation.{IsAcyclic};

use crate::interface_deps::InterfaceDirectDeps;
use crate::next::{next_use, next_world_interface, other_package};
use crate::world_deps::WorldInterfaces;
use std::alloc::{AllocError, Global};
use std::marker::Model;
use wit_data::{Interface, InterfaceId, PackageId, WorldId};
use wit_digraph::post_order_of_roots;
use wit_graph_data::{Graph, Package, ResolveResult};
use wit_values::{Items, NamesIter};

/// The interfaces that the interfaces of a package use, and then those that its worlds name, in the
/// order of its tables, with repeats.
#[derive(Drop)]
struct PackageInterfaces<'a> {
    graph: &'a Graph,
    uses: Option<InterfaceDirectDeps<'a>>,
    interfaces: NamesIter<'a, InterfaceId>,
    named: Option<WorldInterfaces<'a>>,
    worlds: NamesIter<'a, WorldId>,
}

impl<'a> Model for PackageInterfaces<'a> {
    ghost use Rattle.std.specs.Prelude.{List, ℕ, ◌++◌};
    ghost use Rattle.wit_queries.specs.RemainingUses.{remaining_interfaces, remaining_uses};

    ghost Value = { List ℕ };

    ghost view = { λ a. remaining_uses a.graph.now.types a.graph.now.interfaces a.uses a.interfaces
        ++ remaining_interfaces a.graph.now.types a.graph.now.worlds a.named a.worlds };
}

impl<'a> PackageInterfaces<'a> {
    /// Those of a package.
    fn of(graph: &'a Graph, package: &'a Package) -> PackageInterfaces<'a>
        ensures { result
            ≡ package_interfaces graph.now.types graph.now.interfaces graph.now.worlds
            «package».now }
    {
        PackageInterfaces {
            graph,
            uses: None,
            interfaces: package.interfaces.iter(),
            named: None,
            worlds: package.worlds.iter(),
        }
    }
}

impl<'a> Iterator for PackageInterfaces<'a> {
    type Item = InterfaceId;

    ghost next_gives = { YieldsFirst (λ named. named) };

    ghost remaining = { item_count (λ named. named) };

    fn next(&mut self) -> Option<InterfaceId> {
        match next_use(self.graph, &mut self.uses, &mut self.interfaces) {
            Some(interface) => Some(interface),
            None => next_world_interface(self.graph, &mut self.named, &mut self.worlds),
        }
    }
}

/// The packages that a package depends on directly, other than itself, with repeats: those of what
/// the interfaces of its table use, and then those of what its worlds name.
#[derive(Drop)]
pub struct PackageDirectDeps<'a> {
    interfaces: &'a [Interface],
    package: PackageId,
    named: PackageInterfaces<'a>,
}

impl<'a> Model for PackageDirectDeps<'a> {
    ghost use Rattle.std.specs.Prelude.{List, ℕ};
    ghost use Rattle.wit_queries.specs.RemainingUses.{other_packages};

    ghost Value = { List ℕ };

    ghost view = { λ a. other_packages a.interfaces.now a.«package» a.named };
}

impl<'a> Iterator for PackageDirectDeps<'a> {
    type Item = PackageId;

    ghost next_gives = { YieldsFirst (λ deps. deps) };

    ghost remaining = { item_count (λ deps. deps) };

    fn next(&mut self) -> Option<PackageId> {
        next_other(self.interfaces, self.package, &mut self.named)
    }
}

/// The next package other than this one.
fn next_other(
    interfaces: &[Interface],
    package: PackageId,
    named: &mut PackageInterfaces<'_>,
) -> Option<PackageId>
    ensures { MatchOption result
        ((other_packages interfaces.now «package» named.old ≡ []) × (named.new ≡ []))
        (λ p. other_packages interfaces.now «package» named.old ≡ p
        ∷ other_packages interfaces.now «package» named.new) }
{
    while let Some(interface) = named.next() {
        if let Some(other) = other_package(interfaces, package, interface) {
            return Some(other);
        }
    }
    None
}

/// The packages that a package depends on directly, other than itself, with repeats: those of what
/// the interfaces of its table use, and then those of what its worlds name, imports before exports.
/// The package is there. It takes no memory.
///
/// Source: `package_direct_deps` of wit-parser 0.263.0.
pub fn package_direct_deps(graph: &Graph, id: PackageId) -> PackageDirectDeps<'_>
    requires { id < length graph.now.packages }
    ensures { result
        ≡ package_direct_deps graph.now.types graph.now.interfaces graph.now.worlds
        graph.now.packages id }
{
    let package = graph.packages.at(id.index());
    PackageDirectDeps {
        interfaces: graph.interfaces.as_slice(),
        package: id,
        named: PackageInterfaces::of(graph, package),
    }
}

/// Which package depends on which, as adjacency lists: list i has the direct dependencies of package i, both
/// from 0. The only error is want of memory.
pub fn package_uses(alloc: Global, graph: &Graph) -> Result<Items<Items<usize>>, AllocError>
    ensures { IfOk result (λ rows.
        rows
        ≡ package_uses graph.now.types graph.now.interfaces graph.now.worlds
        graph.now.packages) }
{
    let mut rows = Items::new(alloc);
    for index in 0..graph.packages.len() {
        let row = package_row(alloc, graph, PackageId::from_index(index))?;
        rows.push(row)?;
    }
    Ok(rows)
}

/// The direct dependencies of a package, as a row.
fn package_row(alloc: Global, graph: &Graph, id: PackageId) -> Result<Items<usize>, AllocError>
    requires { id < length graph.now.packages }
    ensures { IfOk result (λ row.
        row
        ≡ package_direct_deps graph.now.types graph.now.interfaces graph.now.worlds
        graph.now.packages id) }
{
    let mut row = Items::new(alloc);
    for used in package_direct_deps(graph, id) {
        row.push(used.index())?;
    }
    Ok(row)
}

/// All packages, each once and after those that it depends on, else in the order of their ids. Packages depend on
/// packages that are there, and none on itself, as in a valid graph. The only refusal is want of memory (28).
///
/// Source: `topological_packages` of wit-parser 0.263.0.
pub fn topological_packages(alloc: Global, graph: &Graph) -> ResolveResult<Vec<PackageId>>
    requires { IsAcyclic
        (package_uses graph.now.types graph.now.interfaces graph.now.worlds graph.now.packages) }
    ensures order { IfOk result (λ order.
        order.items
        ≡ topological_packages graph.now.types graph.now.interfaces graph.now.worlds
        graph.now.packages) }
    ensures memory { IfErr result (λ e. e ≡ OutOfMemory) }
{
    let rows = package_uses(alloc, graph)?;
    let all = numbers_below(alloc, rows.len())?;
    let order = post_order_of_roots(alloc, rows.as_slice(), all.as_slice())?;
    Ok(package_ids(alloc, order.as_slice())?)
}

/// The numbers from 0 on, so many.
fn numbers_below(alloc: Global, count: usize) -> Result<Items<usize>, AllocError>
    ensures { IfOk result (λ numbers. numbers ≡ range_with_len 0 count) }
{
    let mut numbers = Items::new(alloc);
    for number in 0..count {
        numbers.push(number)?;
    }
    Ok(numbers)
}

/// The ids of the packages at these indices.
fn package_ids(alloc: Global, places: &[usize]) -> Result<Vec<PackageId>, AllocError>
    ensures { IfOk result (λ ids. ids.items ≡ places.now) }
{
    let mut ids = Vec::new(alloc);
    for place in places {
        ids.push(PackageId::from_index(*place))?;
    }
    Ok(ids)
}
