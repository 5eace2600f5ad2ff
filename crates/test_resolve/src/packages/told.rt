//! How refused pushes are told: the number and the fields of the refusal, the line in which it is, and that all but
//! the files is as before.
use crate::packages::parts::{first_package, group, push_group};
use crate::packages::shown::{shown, write_stability};
use std::alloc::{AllocError, Global};
use std::fmt::Write;
use std::process::Abort;
use wit_data::{
    PackageId, PackageName, Span, Stability, Text, UnresolvedPackage, UnresolvedPackageGroup,
};
use wit_graph_data::{ResolveError, ResolveErrorKind, ResolveResult};
use wit_resolve_graph::{Resolve, SourceFault};

/// The number of a refusal, its span and its fields.
pub fn write_refusal(out: &mut String, refusal: &ResolveError) -> Result<(), AllocError> {
    let number = refusal.number();
    let (start, end) = (refusal.kind().span().start(), refusal.kind().span().end());
    write!(out, "{number} at {start}-{end}")?;
    write_fields(out, refusal.kind())
}

fn write_fields(out: &mut String, kind: &ResolveErrorKind) -> Result<(), AllocError> {
    match kind {
        ResolveErrorKind::PackageNotFound {
            requested,
            known,
            ..
        } => write_known(out, requested, known.as_slice()),
        ResolveErrorKind::WorldNotFound {
            requested,
            package,
            ..
        } => write_missing(out, "world", requested, package),
        ResolveErrorKind::InterfaceNotFound {
            requested,
            package,
            ..
        } => write_missing(out, "interface", requested, package),
        ResolveErrorKind::InvalidTransitiveDependency { name, .. } => write!(out, " name {name}"),
        ResolveErrorKind::DuplicatePackage { name, span2, .. } => write_twice(out, name, *span2),
        ResolveErrorKind::PackageCycle { package, .. } => write!(out, " package {package}"),
        ResolveErrorKind::ItemShadowing {
            item_type,
            name,
            ..
        } => write_shadowed(out, item_type, name),
        ResolveErrorKind::StabilityMismatch { from, into, .. } => write_mismatch(out, from, into),
        ResolveErrorKind::Semantic { message, .. } => write!(out, " message {message}"),
        ResolveErrorKind::OffsetOverflow | ResolveErrorKind::OutOfMemory => Ok(()),
    }
}

fn write_known(
    out: &mut String,
    requested: &PackageName,
    known: &[PackageName],
) -> Result<(), AllocError> {
    write!(out, " requested {requested} known")?;
    write_names(out, known)
}

fn write_missing(
    out: &mut String,
    word: &str,
    requested: &Text,
    package: &PackageName,
) -> Result<(), AllocError> {
    write!(out, " {word} {requested} package {package}")
}

fn write_twice(out: &mut String, name: &PackageName, earlier: Span) -> Result<(), AllocError> {
    let (start, end) = (earlier.start(), earlier.end());
    write!(out, " name {name} also at {start}-{end}")
}

fn write_shadowed(out: &mut String, item_type: &Text, name: &Text) -> Result<(), AllocError> {
    write!(out, " item_type {item_type} name {name}")
}

fn write_mismatch(out: &mut String, from: &Stability, into: &Stability) -> Result<(), AllocError> {
    out.push_str(" from")?;
    write_stability(out, from)?;
    out.push_str(" into")?;
    write_stability(out, into)
}

fn write_names(out: &mut String, names: &[PackageName]) -> Result<(), AllocError> {
    for name in names {
        write!(out, " {name}")?;
    }
    Ok(())
}

/// The file of the package that is there: `item` of `foo:first/things` is a number. It ends at 59.
const FIRST: &str = "package foo:first;\n\ninterface things { type item = u32; }\n";

/// A `Resolve` with that package and its file.
pub fn first(rt: &impl Abort, alloc: Global) -> Resolve {
    let mut resolve = Resolve::new(alloc);
    let first = group(rt, alloc, "first.wit", FIRST, first_package(rt, alloc));
    push_group(rt, alloc, &mut resolve, first).expect(rt, "a package");
    resolve
}

/// A push that has to be refused, told: the fields, the line, whether the graph is as before, and the files.
pub fn told(
    rt: &impl Abort,
    alloc: Global,
    before: &str,
    resolve: &Resolve,
    pushed: ResolveResult<PackageId>,
) -> String {
    let Err(refusal) = pushed else {
        panic!(rt; "a package");
    };
    let mut out = String::new(alloc);
    write_refusal(&mut out, &refusal).expect(rt, "memory");
    let line = line(rt, alloc, resolve, refusal);
    let kept = kept(rt, alloc, before, resolve);
    write!(out, "\n{line}\n{kept}, files").expect(rt, "memory");
    write_files(&mut out, resolve).expect(rt, "memory");
    out
}

/// The line in which a refusal is.
fn line(rt: &impl Abort, alloc: Global, resolve: &Resolve, refusal: ResolveError) -> String {
    let fault = SourceFault::Resolve(refusal);
    resolve.render_error(alloc, &fault).expect(rt, "memory")
}

/// Whether the graph is shown as before.
pub fn kept(rt: &impl Abort, alloc: Global, before: &str, resolve: &Resolve) -> &'static str {
    let after = shown(rt, alloc, resolve.graph());
    if before == after.as_str() {
        "graph as before"
    } else {
        "another graph"
    }
}

/// The names of the files, and where they end.
pub fn write_files(out: &mut String, resolve: &Resolve) -> Result<(), AllocError> {
    for name in resolve.source_map().source_names() {
        write!(out, " {name}")?;
    }
    let end = resolve.source_map().end();
    write!(out, " to {end}")
}

/// How the push of a group after the first one is refused.
fn refused(rt: &impl Abort, alloc: Global, main: UnresolvedPackageGroup) -> String {
    let mut resolve = first(rt, alloc);
    let before = shown(rt, alloc, resolve.graph());
    let pushed = push_group(rt, alloc, &mut resolve, main);
    told(rt, alloc, before.as_str(), &resolve, pushed)
}

/// How the push of a package with its file, after the first one, is refused.
pub fn refused_file(
    rt: &impl Abort,
    alloc: Global,
    contents: &str,
    main: UnresolvedPackage,
) -> String {
    refused(rt, alloc, group(rt, alloc, "main.wit", contents, main))
}
