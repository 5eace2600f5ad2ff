//! The order of packages that are added together.
ghost use Rattle.std.specs.Prelude.{◌≡◌, ◌⊎◌, ℕ, IfErr, IfOk, IsTrue, List, OnOk};
ghost use Rattle.wit_graph_data.specs.declared.error_kind.ResolveErrorKind.{ResolveErrorKind};
ghost use Rattle.wit_graph_data.specs.declared.error_kind.ResolveErrorKind.TheVariants.{OutOfMemory};
ghost use Rattle.wit_link.specs.GroupOrder.{AreSorted, HaveSpans, IsSortCause};
ghost use Rattle.wit_link.specs.steps.GroupOrderSteps.{IsAlone, IsOrdered};

use crate::depends::uses_of_group;
use crate::name_order::{indices_by_name, package_indices_by_name};
use crate::refusal::on_package_cycle;
use std::alloc::Global;
use wit_data::{Items, UnresolvedPackage};
use wit_digraph::{find_cycle, in_order, post_order_of_roots};
use wit_graph_data::ResolveResult;

/// The packages in the order in which they are added, each with its offset for spans: dependencies first, else in the
/// order of their names. Each has a span for each package that it names, as packages with their shape do.
///
/// Refused if two have one name (5), if packages depend on each other or one on itself (6), if the span of an error
/// ends past 4294967295 (27), and for memory (28). A refusal drops the packages.
///
/// Source: `sort_unresolved_packages` of wit-parser 0.263.0.
pub fn sort_groups(
    alloc: Global,
    unresolved: Items<(UnresolvedPackage, u32)>,
) -> ResolveResult<Items<(UnresolvedPackage, u32)>>
    requires { HaveSpans unresolved }
    ensures ok { IfOk result (λ sorted. (order : List ℕ) × AreSorted unresolved order sorted) }
    ensures cause { IfErr result (λ kind. (kind ≡ OutOfMemory) ⊎ IsSortCause unresolved kind) }
    ensures refuses { (kind : ResolveErrorKind) → IsSortCause unresolved kind → OnOk result ⊥ }
{
    if is_alone(&unresolved) {
        return Ok(unresolved);
    }
    let order = group_order(alloc, &unresolved)?;
    Ok(in_order(alloc, unresolved, order.as_slice())?)
}

/// Whether there is one package alone, which doesn't name things of itself: it is in order then.
fn is_alone(unresolved: &Items<(UnresolvedPackage, u32)>) -> bool
    ensures { IsTrue result → IsAlone unresolved.now }
{
    if unresolved.len() != 1 {
        return false;
    }
    let (package, _) = unresolved.at(0);
    !package.foreign_deps.contains_key(&package.name)
}

/// The indices of the packages in that order.
fn group_order(
    alloc: Global,
    unresolved: &Items<(UnresolvedPackage, u32)>,
) -> ResolveResult<Items<usize>>
    requires { HaveSpans unresolved.now }
    ensures ok { IfOk result (IsOrdered unresolved.now) }
    ensures cause { IfErr result (λ kind. (kind ≡ OutOfMemory) ⊎ IsSortCause unresolved.now kind) }
{
    let places = indices_by_name(alloc, unresolved)?;
    places.keys_differ();
    let uses = uses_of_group(alloc, unresolved, &places)?;
    if let Some(found) = find_cycle(alloc, uses.as_slice())? {
        return Err(on_package_cycle(unresolved, found));
    }
    let roots = package_indices_by_name(alloc, places)?;
    Ok(post_order_of_roots(alloc, uses.as_slice(), roots.as_slice())?)
}
