//! Sources that are pushed by a parse which comes in, how their faults are told, and sources of packages.
ghost use Rattle.std.specs.Prelude.{IfOk, IsErr};
ghost use Rattle.wit_data.specs.Shape.{IsGroupShaped};
ghost use Rattle.wit_resolve_graph.specs.SourceNames.{ArePlaced};

use crate::fixtures::{assert_text, text};
use std::alloc::{AllocError, Global};
use std::collections::BTreeMap;
use std::fmt::Write;
use std::process::Abort;
use wit_data::{
    Docs, Function, FunctionKind, Interface, Items, Names, PackageId, PackageName, SourceMap, Span,
    Table, TryClone, UnresolvedPackage, UnresolvedPackageGroup,
};
use wit_resolve_graph::{PackageSources, ParseFault, Resolve, Shape, SourceFault};

/// What a parse answers that can't read its text from 13 to 18, or that has no memory.
fn unreadable(
    rt: &impl Abort,
    alloc: Global,
    source_map: SourceMap,
    has_memory: bool,
) -> Result<UnresolvedPackageGroup, ParseFault>
    ensures { IsErr result }
{
    if !has_memory {
        return Err(ParseFault::OutOfMemory);
    }
    Err(ParseFault::Text {
        source_map,
        span: Span::new(13, 18),
        message: text(rt, alloc, "bad"),
    })
}

/// Where the text of a file can't be read, or the number of the refusal, and how it is told.
fn fault(rt: &impl Abort, alloc: Global, resolve: &mut Resolve, has_memory: bool) -> String {
    let contents = "package a:b;\nworld w {}\n";
    let parse = |source_map: SourceMap| unreadable(rt, alloc, source_map, has_memory);
    let Err(fault) = resolve.push_source(alloc, "m.wit", contents, parse) else {
        panic!(rt; "a package");
    };
    let shown = resolve.render_error(alloc, &fault).expect(rt, "memory");
    match &fault {
        SourceFault::Parse { span, .. } => {
            let (start, end) = (span.start(), span.end());
            format!(in alloc; "{start}-{end} {shown}\n").expect(rt, "memory")
        }
        SourceFault::Resolve(refusal) => {
            let number = refusal.number();
            format!(in alloc; "{number} {shown}\n").expect(rt, "memory")
        }
    }
}

/// What comes of two such files, and of one for which there is no memory.
fn faults(rt: &impl Abort, alloc: Global) -> String {
    let mut resolve = Resolve::new(alloc);
    let first = fault(rt, alloc, &mut resolve, true);
    let second = fault(rt, alloc, &mut resolve, true);
    let third = fault(rt, alloc, &mut resolve, false);
    format!(in alloc; "{first}{second}{third}").expect(rt, "memory")
}

#[test]
fn faults_stand_in_the_files_that_follow(rt: HostRuntime) {
    assert_text(
        &rt,
        faults(&rt, rt.alloc()),
        "13-18 bad\n\
        \x20    --> m.wit:2:1\n\
        \x20     |\n\
        \x20   2 | world w {}\n\
        \x20     | ^----\n\
        38-43 bad\n\
        \x20    --> m.wit:2:1\n\
        \x20     |\n\
        \x20   2 | world w {}\n\
        \x20     | ^----\n\
        28 out of memory\n",
    );
}

/// The function of the interface, with its span in the file.
fn functions(rt: &impl Abort, alloc: Global) -> Names<Function> {
    let name = text(rt, alloc, "second-func");
    let mut function = Function::new(name, FunctionKind::Freestanding, Items::new(alloc), None);
    function.span = Span::new(51, 62);
    let name = String::from_str(alloc, "second-func").expect(rt, "memory");
    let mut functions = Names::new(alloc);
    functions.push(name, function).expect(rt, "memory");
    functions
}

/// An interface, with its span in the file.
fn interface(rt: &impl Abort, alloc: Global) -> Interface {
    let mut interface = Interface::new(alloc, Some(text(rt, alloc, "second-iface")));
    interface.functions = functions(rt, alloc);
    interface.span = Span::new(32, 44);
    interface
}

/// The package of the file.
fn package(rt: &impl Abort, alloc: Global) -> UnresolvedPackage {
    let mut interfaces = Items::new(alloc);
    interfaces.push(interface(rt, alloc)).expect(rt, "memory");
    let name = PackageName::new(text(rt, alloc, "test"), text(rt, alloc, "second"), None);
    UnresolvedPackage {
        name,
        package_name_span: Span::new(8, 19),
        docs: Docs::none(),
        worlds: Items::new(alloc),
        interfaces,
        types: Items::new(alloc),
        foreign_deps: Table::new(alloc),
        foreign_dep_spans: Items::new(alloc),
        unknown_type_spans: Items::new(alloc),
        required_resource_types: Items::new(alloc),
    }
}

/// What a parse of the file answers.
fn parsed(
    rt: &impl Abort,
    alloc: Global,
    source_map: SourceMap,
) -> Result<UnresolvedPackageGroup, ParseFault>
    ensures { IfOk result (λ group. IsGroupShaped group) }
{
    let group = UnresolvedPackageGroup {
        main: package(rt, alloc),
        nested: Items::new(alloc),
        source_map,
    };
    if group.is_shaped(alloc).expect(rt, "memory") {
        return Ok(group);
    }
    Err(ParseFault::OutOfMemory)
}

const FIRST: &str = "package test:first;\n\ninterface first-iface {\n    first-func: func();\n}\n";

const SECOND: &str =
    "package test:second;\n\ninterface second-iface {\n    second-func: func();\n}\n";

/// A file before which nothing stands.
fn file(rt: &impl Abort, alloc: Global, path: &str, contents: &str) -> SourceMap {
    let mut map = SourceMap::new(alloc);
    let contents = String::from_str(alloc, contents).expect(rt, "memory");
    map.push_str(alloc, path, contents).expect(rt, "memory");
    map
}

/// Pushes the package of the second file.
fn push_second(rt: &impl Abort, alloc: Global, resolve: &mut Resolve) {
    let parse = |source_map: SourceMap| parsed(rt, alloc, source_map);
    resolve
        .push_source(alloc, "second.wit", SECOND, parse)
        .expect(rt, "a package");
}

/// The package of the second file after the first one: pushed there, or merged.
fn second_package(rt: &impl Abort, alloc: Global, is_merged: bool) -> Resolve {
    let mut resolve = Resolve::new(alloc);
    let first = file(rt, alloc, "first.wit", FIRST);
    resolve.push_source_map(alloc, first).expect(rt, "memory");
    if is_merged {
        let mut other = Resolve::new(alloc);
        push_second(rt, alloc, &mut other);
        drop(resolve.merge(alloc, other).expect(rt, "a merge"));
    } else {
        push_second(rt, alloc, &mut resolve);
    }
    resolve
}

/// Where the interface and its function stand.
fn places(rt: &impl Abort, alloc: Global, is_merged: bool) -> String {
    let resolve = second_package(rt, alloc, is_merged);
    let interface = resolve.interfaces().first().expect(rt, "an interface");
    let function = interface
        .functions
        .get("second-func")
        .expect(rt, "a function");
    let mut told = String::new(alloc);
    for &span in &[interface.span, function.span] {
        let (start, end) = (span.start(), span.end());
        let shown = resolve.render_location(alloc, span).expect(rt, "memory");
        write!(told, "{start}-{end} {shown};").expect(rt, "memory");
    }
    told
}

#[test]
fn spans_move_with_their_file(rt: HostRuntime) {
    for is_merged in [false, true] {
        assert_text(
            &rt,
            places(&rt, rt.alloc(), is_merged),
            "104-116 second.wit:3:11;123-134 second.wit:4:5;",
        );
    }
}

/// The files of these paths.
fn files(rt: &impl Abort, alloc: Global, paths: [&str; 2]) -> SourceMap {
    let mut map = SourceMap::new(alloc);
    for path in paths {
        map.push_str(alloc, path, String::new(alloc))
            .expect(rt, "memory");
    }
    map
}

/// The first index for package 0, and the second for package 1.
fn two_places(alloc: Global) -> Result<BTreeMap<PackageId, usize>, AllocError>
    ensures { IfOk result (λ places. ArePlaced places.entries 2) }
{
    let mut places = BTreeMap::new(alloc);
    places.insert(PackageId::from_index(0), 0)?;
    places.insert(PackageId::from_index(1), 1)?;
    Ok(places)
}

/// Files a and b of package 0, and b and c of package 1.
fn two_packages(rt: &impl Abort, alloc: Global) -> PackageSources {
    let first = files(rt, alloc, ["a", "b"]);
    let second = files(rt, alloc, ["b", "c"]);
    let maps = vec![in alloc; first, second].expect(rt, "memory");
    let places = two_places(alloc).expect(rt, "memory");
    PackageSources::from_source_maps(alloc, maps, places).expect(rt, "memory")
}

/// All names, those of package 1, and those of package 2.
fn names(rt: &impl Abort, alloc: Global, sources: &PackageSources) -> String {
    let mut shown = String::new(alloc);
    for name in sources.source_names(alloc).expect(rt, "memory") {
        shown.push_str(name).expect(rt, "memory");
    }
    for id in [1, 2] {
        match sources.package_source_names(PackageId::from_index(id)) {
            Some(names) => {
                shown.push_str(" of 1: ").expect(rt, "memory");
                for name in names {
                    shown.push_str(name).expect(rt, "memory");
                }
            }
            None => shown.push_str(", none").expect(rt, "memory"),
        }
    }
    shown
}

#[test]
fn packages_have_their_sources(rt: HostRuntime) {
    let sources = two_packages(&rt, rt.alloc());
    let copy = sources.try_clone().expect(&rt, "memory");
    assert_text(&rt, names(&rt, rt.alloc(), &copy), "abc of 1: bc, none");
}

#[test]
fn one_source_is_of_one_package(rt: HostRuntime) {
    let package = PackageId::from_index(1);
    let sources = PackageSources::from_single_source(rt.alloc(), package, "m").expect(
        &rt, "memory",
    );
    assert_text(&rt, names(&rt, rt.alloc(), &sources), "m of 1: m, none");
}
