//! Groups of packages from the files of a source map.
ghost use Rattle.std.specs.Prelude.{◌≡◌, IfErr, IfOk, IsNone, map};
ghost use Rattle.std.specs.List.{AllByRecursion};
ghost use Rattle.wit_data.specs.Each.{Each};
ghost use Rattle.wit_data.specs.Shape.{IsGroupShaped, IsShaped};
ghost use Rattle.wit_groups.specs.Files.{HasFiles, source_map_of};

use crate::fault::{Fault, GroupFault, GroupFaultKind, RuleFault};
use crate::gates::docs_of;
use crate::package_names::{package_name, package_span};
use crate::packages::{PackageHead, make_package};
use crate::sources::{Source, sources_by_path};
use crate::written::Part;
use std::alloc::{AllocError, Global};
use wit_data::{
    Docs, Items, PackageName, SourceMap, Span, TryClone, UnresolvedPackage, UnresolvedPackageGroup,
};
use wit_shape::{ShapeFault, find_shape_fault};
use wit_text::read_file;
use wit_text::syntax::{File, Header, NestedPackage};

/// The packages of the files of one package: the main one, and those in braces.
///
/// The files are read in the order of their paths, as wit-parser reads them. The first fault is told, in the words of
/// wit-parser, with the files.
///
/// Source: `parse` of `SourceMap` of wit-parser 0.263.0.
pub fn read_group(
    alloc: Global,
    source_map: SourceMap,
) -> Result<UnresolvedPackageGroup, GroupFault>
    ensures shaped { IfOk result (λ group. IsGroupShaped group) }
    ensures files { IfOk result (λ group. group.source_map ≡ source_map) }
    ensures fault { IfErr result (HasFiles source_map) }
{
    match read_packages(alloc, &source_map) {
        Ok(Packages { main, nested }) => shaped_group(alloc, main, nested, source_map),
        Err(fault) => Err(fault.of_files(source_map)),
    }
}

/// The group of these packages, if they have their shape.
fn shaped_group(
    alloc: Global,
    main: UnresolvedPackage,
    nested: Items<UnresolvedPackage>,
    source_map: SourceMap,
) -> Result<UnresolvedPackageGroup, GroupFault>
    ensures shaped { IfOk result (λ group. IsGroupShaped group) }
    ensures files { IfOk result (λ group. group.source_map ≡ source_map) }
    ensures fault { IfErr result (HasFiles source_map) }
{
    match first_shape_fault(alloc, &main, nested.as_slice()) {
        Ok(None) => Ok(UnresolvedPackageGroup {
            main,
            nested,
            source_map,
        }),
        Ok(Some((span, fault))) => Err(GroupFault::Text {
            source_map,
            span,
            kind: GroupFaultKind::Shape(fault),
        }),
        Err(refused) => Err(GroupFault::from(refused)),
    }
}

/// The first fault of the shape of packages, and where the name of the package stands. None where each has its shape.
fn first_shape_fault(
    alloc: Global,
    main: &UnresolvedPackage,
    nested: &[UnresolvedPackage],
) -> Result<Option<(Span, ShapeFault)>, AllocError>
    ensures { IfOk result
        (λ found. IsNone found → (IsShaped main.now) × (Each IsShaped nested.now)) }
{
    match find_shape_fault(alloc, main)? {
        Some(fault) => Ok(Some((main.package_name_span, fault))),
        None => nested_shape_fault(alloc, nested),
    }
}

/// The same of packages in braces.
fn nested_shape_fault(
    alloc: Global,
    nested: &[UnresolvedPackage],
) -> Result<Option<(Span, ShapeFault)>, AllocError>
    ensures { IfOk result (λ found. IsNone found → Each IsShaped nested.now) }
{
    for package in nested {
        if let Some(fault) = find_shape_fault(alloc, package)? {
            return Ok(Some((package.package_name_span, fault)));
        }
    }
    Ok(None)
}

/// A group of packages, and those of the packages on which it depends.
#[derive(Drop)]
pub struct Groups {
    pub main: UnresolvedPackageGroup,
    pub deps: Items<UnresolvedPackageGroup>,
}

/// The packages of the files of a package, and those of its dependencies, each from its files. The
/// first fault is told: of the main package before those of others.
pub fn read_groups(
    alloc: Global,
    main: SourceMap,
    deps: Items<SourceMap>,
) -> Result<Groups, GroupFault>
    ensures main { IfOk result (λ groups. IsGroupShaped groups.main) }
    ensures deps { IfOk result (λ groups. AllByRecursion IsGroupShaped groups.deps) }
    ensures main_files { IfOk result (λ groups. groups.main.source_map ≡ main) }
    ensures deps_files { IfOk result (λ groups. map source_map_of groups.deps ≡ deps) }
{
    let main = read_group(alloc, main)?;
    let deps = read_each(alloc, deps)?;
    Ok(Groups { main, deps })
}

fn read_each(
    alloc: Global,
    maps: Items<SourceMap>,
) -> Result<Items<UnresolvedPackageGroup>, GroupFault>
    ensures shaped { IfOk result (λ groups. AllByRecursion IsGroupShaped groups) }
    ensures files { IfOk result (λ groups. map source_map_of groups ≡ maps) }
{
    let mut groups = Items::new(alloc);
    for source_map in maps.into_vec() {
        let group = read_group(alloc, source_map)?;
        groups.push(group)?;
    }
    Ok(groups)
}

/// The packages of a group.
#[derive(Drop)]
struct Packages {
    main: UnresolvedPackage,
    nested: Items<UnresolvedPackage>,
}

/// A file that was read.
#[derive(Drop)]
struct FileRead<'a> {
    text: &'a str,
    file: File,
}

/// What the files that were read say: their packages in braces, what the main package is called, and whether a header has
/// comments before it.
#[derive(Drop)]
struct Reading<'a> {
    alloc: Global,
    nested: Items<UnresolvedPackage>,
    head: Option<PackageHead>,
    has_comments: bool,
    files: Items<FileRead<'a>>,
}

fn read_packages(alloc: Global, source_map: &SourceMap) -> Result<Packages, Fault> {
    let sources = sources_by_path(alloc, source_map)?;
    let mut reading = Reading {
        alloc,
        nested: Items::new(alloc),
        head: None,
        has_comments: false,
        files: Items::new(alloc),
    };
    for source in sources.iter() {
        reading.add(*source)?;
    }
    reading.finish()
}

impl<'a> Reading<'a> {
    /// Reads one more file.
    fn add(&mut self, source: Source<'a>) -> Result<(), Fault> {
        let file = read_file(self.alloc, source.text, source.start)?;
        for package in file.packages.iter() {
            let made = nested_package(self.alloc, source.text, &file, package)?;
            self.nested.push(made)?;
        }
        if let Some(header) = &file.header {
            self.add_header(source.text, header)?;
        }
        self.files.push(FileRead {
            text: source.text,
            file,
        })?;
        Ok(())
    }

    /// Notes of which package a file is.
    fn add_header(&mut self, source: &str, header: &Header) -> Result<(), Fault> {
        let name = package_name(self.alloc, source, &header.name)?;
        let span = package_span(&header.name);
        self.check_name(&name, span)?;
        if let Some(comments) = &header.docs {
            if self.has_comments {
                return Err(Fault::rule(comments.span, RuleFault::SecondDocs));
            }
            self.has_comments = true;
        }
        let docs = docs_of(self.alloc, source, &header.docs)?;
        self.set_head(name, span, docs);
        Ok(())
    }

    /// Whether a file is of the package of those before it.
    fn check_name(&self, name: &PackageName, span: Span) -> Result<(), Fault> {
        match &self.head {
            Some(head) if head.name != *name => {
                let kind = GroupFaultKind::OtherPackage {
                    name: name.try_clone()?,
                    previous: head.name.try_clone()?,
                };
                Err(Fault::At(span, kind))
            }
            _ => Ok(()),
        }
    }

    /// Notes what the package is called here, and its documentation if it has none yet.
    fn set_head(&mut self, name: PackageName, span: Span, docs: Docs) {
        let known = match self.head.take() {
            Some(head) => head.docs,
            None => Docs::none(),
        };
        let docs = if known.contents.is_some() {
            known
        } else {
            docs
        };
        self.head = Some(PackageHead { name, span, docs });
    }

    /// The packages of the files.
    fn finish(self) -> Result<Packages, Fault> {
        let Reading {
            alloc,
            nested,
            head,
            files,
            has_comments: _,
        } = self;
        let Some(head) = head else {
            return Err(Fault::rule(Span::unknown(), RuleFault::NoPackage));
        };
        let parts = parts_of(alloc, files.as_slice())?;
        let main = make_package(alloc, head, parts.as_slice())?;
        Ok(Packages { main, nested })
    }
}

/// What files say of their package.
fn parts_of<'a>(alloc: Global, files: &'a [FileRead<'a>]) -> Result<Items<Part<'a>>, AllocError> {
    let mut parts = Items::new(alloc);
    for read in files {
        parts.push(Part {
            source: read.text,
            types: read.file.types.as_slice(),
            items: read.file.items.as_slice(),
        })?;
    }
    Ok(parts)
}

/// A package in braces of a file.
fn nested_package(
    alloc: Global,
    source: &str,
    file: &File,
    package: &NestedPackage,
) -> Result<UnresolvedPackage, Fault> {
    if let Some(inner) = package.inner.first() {
        let span = package_span(inner);
        return Err(Fault::rule(span, RuleFault::NestedTooDeep));
    }
    let head = PackageHead {
        name: package_name(alloc, source, &package.name)?,
        span: package_span(&package.name),
        docs: docs_of(alloc, source, &package.docs)?,
    };
    let part = Part {
        source,
        types: file.types.as_slice(),
        items: package.items.as_slice(),
    };
    make_package(alloc, head, &[part])
}
