//! Names of packages, as files write them.

use crate::fault::Fault;
use crate::gates::version_of;
use std::alloc::Global;
use wit_data::{PackageName, Span, Text};
use wit_text::syntax::PackagePath;

/// The name of a package that a file with this text writes.
pub(crate) fn package_name(
    alloc: Global,
    source: &str,
    path: &PackagePath,
) -> Result<PackageName, Fault> {
    let version = match &path.version {
        Some(piece) => Some(version_of(alloc, source, piece)?),
        None => None,
    };
    let namespace = Text::try_from_str(alloc, path.namespace.text(source))?;
    let name = Text::try_from_str(alloc, path.name.text(source))?;
    Ok(PackageName::new(namespace, name, version))
}

/// Where the name of a package stands, with its version.
pub(crate) fn package_span(path: &PackagePath) -> Span {
    match &path.version {
        Some(version) => up_to(path.namespace.span, version.span),
        None => up_to(path.namespace.span, path.name.span),
    }
}

/// Where the name of a package stands, without its version.
pub(crate) fn bare_span(path: &PackagePath) -> Span {
    up_to(path.namespace.span, path.name.span)
}

/// From the beginning of a span to the end of another.
fn up_to(first: Span, last: Span) -> Span {
    if first.is_known() && last.is_known() && first.start() <= last.end() {
        Span::new(first.start(), last.end())
    } else {
        first
    }
}
