//! Copies of the kinds of errors that carry data, each made of what the kind carries.
ghost use Rattle.std.specs.Prelude.{◌≡◌, IfOk};
ghost use Rattle.wit_graph_data.specs.declared.error_kind.ResolveErrorKind.TheVariants as kinds;

use crate::cause::Cause;
use crate::error_kind::ResolveErrorKind;
use std::alloc::AllocError;
use wit_data::{PackageName, Span, Stability};
use wit_values::{Items, Text, TryClone, try_clone_two};

pub(crate) fn package_not_found(
    span: Span,
    requested: &PackageName,
    known: &Items<PackageName>,
) -> Result<ResolveErrorKind, AllocError>
    ensures { IfOk result (λ copy. copy ≡ kinds.PackageNotFound span requested.now known.now) }
{
    let (requested, known) = try_clone_two(requested, known)?;
    Ok(ResolveErrorKind::PackageNotFound {
        span,
        requested,
        known,
    })
}

pub(crate) fn world_not_found(
    span: Span,
    requested: &Text,
    package: &PackageName,
) -> Result<ResolveErrorKind, AllocError>
    ensures { IfOk result (λ copy. copy ≡ kinds.WorldNotFound span requested.now «package».now) }
{
    let (requested, package) = try_clone_two(requested, package)?;
    Ok(ResolveErrorKind::WorldNotFound {
        span,
        requested,
        package,
    })
}

pub(crate) fn interface_not_found(
    span: Span,
    requested: &Text,
    package: &PackageName,
) -> Result<ResolveErrorKind, AllocError>
    ensures { IfOk result
        (λ copy. copy ≡ kinds.InterfaceNotFound span requested.now «package».now) }
{
    let (requested, package) = try_clone_two(requested, package)?;
    Ok(ResolveErrorKind::InterfaceNotFound {
        span,
        requested,
        package,
    })
}

pub(crate) fn transitive(span: Span, name: &Text) -> Result<ResolveErrorKind, AllocError>
    ensures { IfOk result (λ copy. copy ≡ kinds.InvalidTransitiveDependency span name.now) }
{
    Ok(ResolveErrorKind::InvalidTransitiveDependency {
        span,
        name: name.try_clone()?,
    })
}

pub(crate) fn duplicate(
    name: &PackageName,
    span1: Span,
    span2: Span,
) -> Result<ResolveErrorKind, AllocError>
    ensures { IfOk result (λ copy. copy ≡ kinds.DuplicatePackage name.now span1 span2) }
{
    Ok(ResolveErrorKind::DuplicatePackage {
        name: name.try_clone()?,
        span1,
        span2,
    })
}

pub(crate) fn cycle(span: Span, package: &PackageName) -> Result<ResolveErrorKind, AllocError>
    ensures { IfOk result (λ copy. copy ≡ kinds.PackageCycle span «package».now) }
{
    Ok(ResolveErrorKind::PackageCycle {
        span,
        package: package.try_clone()?,
    })
}

pub(crate) fn shadowing(
    span: Span,
    item_type: &Text,
    name: &Text,
) -> Result<ResolveErrorKind, AllocError>
    ensures { IfOk result (λ copy. copy ≡ kinds.ItemShadowing span item_type.now name.now) }
{
    let (item_type, name) = try_clone_two(item_type, name)?;
    Ok(ResolveErrorKind::ItemShadowing {
        span,
        item_type,
        name,
    })
}

pub(crate) fn mismatch(
    span: Span,
    from: &Stability,
    into: &Stability,
) -> Result<ResolveErrorKind, AllocError>
    ensures { IfOk result (λ copy. copy ≡ kinds.StabilityMismatch span from.now into.now) }
{
    let (from, into) = try_clone_two(from, into)?;
    Ok(ResolveErrorKind::StabilityMismatch { span, from, into })
}

pub(crate) fn semantic(
    span: Span,
    message: &Text,
    cause: Cause,
) -> Result<ResolveErrorKind, AllocError>
    ensures { IfOk result (λ copy. copy ≡ kinds.Semantic span message.now cause) }
{
    Ok(ResolveErrorKind::Semantic {
        span,
        message: message.try_clone()?,
        cause,
    })
}
