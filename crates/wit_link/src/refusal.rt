//! What is told of unresolved packages that can't be put in an order.
ghost use Rattle.std.specs.Prelude.{◌≡◌, ◌⊎◌, ◌<◌, Contains, IfOk, length, slice_get};
ghost use Rattle.std.specs.Map.{keys_of};
ghost use Rattle.wit_digraph.specs.Cycles.{IsOnCycle};
ghost use Rattle.wit_graph_data.specs.declared.error_kind.ResolveErrorKind.TheVariants.{OutOfMemory};
ghost use Rattle.wit_link.specs.GroupOrder.{HaveSpans, IsSortCause, group_uses, names_of};
ghost use Rattle.wit_link.specs.steps.GroupOrderSteps.{IsCycleError, IsDefinedTwiceError, NamesAt};

use std::alloc::AllocError;
use wit_data::{Items, PackageName, Span, TryClone, UnresolvedPackage};
use wit_digraph::CycleUse;
use wit_graph_data::{ResolveError, ResolveErrorKind};

/// The refusal of two packages of one name.
pub(crate) fn defined_twice(
    unresolved: &Items<(UnresolvedPackage, u32)>,
    later: usize,
    earlier: usize,
) -> ResolveError
    requires before { earlier < later }
    requires inside { later < length unresolved.now }
    requires same { slice_get (names_of unresolved.now) earlier
        ≡ slice_get (names_of unresolved.now) later }
    ensures { (result ≡ OutOfMemory) ⊎ IsSortCause unresolved.now result }
{
    match defined_twice_error(unresolved.at(later), unresolved.at(earlier)) {
        Ok(kind) => ResolveError::from(kind),
        Err(error) => ResolveError::from(error),
    }
}

/// What is told of two packages of one name.
fn defined_twice_error(
    later: &(UnresolvedPackage, u32),
    earlier: &(UnresolvedPackage, u32),
) -> Result<ResolveErrorKind, AllocError>
    ensures { IfOk result (IsDefinedTwiceError later.now earlier.now) }
{
    let Some(span1) = later.0.package_name_span.moved(later.1) else {
        return Ok(ResolveErrorKind::OffsetOverflow);
    };
    let Some(span2) = earlier.0.package_name_span.moved(earlier.1) else {
        return Ok(ResolveErrorKind::OffsetOverflow);
    };
    Ok(ResolveErrorKind::DuplicatePackage {
        name: later.0.name.try_clone()?,
        span1,
        span2,
    })
}

/// The refusal of packages that depend on each other.
pub(crate) fn on_package_cycle(
    unresolved: &Items<(UnresolvedPackage, u32)>,
    found: CycleUse,
) -> ResolveError
    requires spans { HaveSpans unresolved.now }
    requires cycle { IsOnCycle (group_uses unresolved.now) found.user found.used }
    requires user { found.user < length unresolved.now }
    requires used { found.used < length unresolved.now }
    ensures { (result ≡ OutOfMemory) ⊎ IsSortCause unresolved.now result }
{
    let name = &unresolved.at(found.used).0.name;
    let (package, span_offset) = unresolved.at(found.user);
    let span = dependency_span(package, name);
    match cycle_error(span, *span_offset, name) {
        Ok(kind) => ResolveError::from(kind),
        Err(error) => ResolveError::from(error),
    }
}

/// Where a package depends on the one of this name.
fn dependency_span(package: &UnresolvedPackage, name: &PackageName) -> Span
    requires spans { length «package».now.foreign_dep_spans ≡ length «package».now.foreign_deps }
    requires depends { Contains (keys_of «package».now.foreign_deps) name.now }
    ensures { NamesAt «package».now name.now result }
{
    for place in 0..package.foreign_deps.len() {
        if package.foreign_deps.entry_at(place).0 == name {
            return *package.foreign_dep_spans.at(place);
        }
    }
    unreachable!()
}

/// What is told of a dependency that is on a cycle.
fn cycle_error(
    span: Span,
    span_offset: u32,
    name: &PackageName,
) -> Result<ResolveErrorKind, AllocError>
    ensures { IfOk result (IsCycleError span span_offset name.now) }
{
    match span.moved(span_offset) {
        Some(span) => Ok(ResolveErrorKind::PackageCycle {
            span,
            package: name.try_clone()?,
        }),
        None => Ok(ResolveErrorKind::OffsetOverflow),
    }
}
