//! Groups of several packages, built by hand: in which order they are added, and how they are refused.
use crate::fixtures::assert_text;
use crate::packages::parts::{interface, interface_list, name_foreign, package};
use crate::packages::shown::shown;
use crate::packages::{parts, told};
use std::alloc::Global;
use std::process::Abort;
use wit_data::{
    AstItem, InterfaceId, Items, PackageId, SourceMap, Span, UnresolvedPackage,
    UnresolvedPackageGroup,
};
use wit_graph_data::ResolveResult;
use wit_resolve_graph::{Resolve, Shape};

/// Package `foo:NAME` with an interface, its name at 8 to 13.
fn holding(rt: &impl Abort, alloc: Global, name: &str, own: &str) -> UnresolvedPackage {
    let mut made = package(rt, alloc, name, "");
    made.package_name_span = Span::new(8, 13);
    made.interfaces = interface_list(rt, alloc, [interface(rt, alloc, own, &[])]);
    made
}

/// The same package, which names interface `named`, at 4 to 6, of package `foo:HOME`, at 2 to 4.
fn naming(
    rt: &impl Abort,
    alloc: Global,
    name: &str,
    own: &str,
    home: &str,
    named: &str,
) -> UnresolvedPackage {
    let mut made = holding(rt, alloc, name, own);
    let item = (named, AstItem::Interface(InterfaceId::from_index(0)));
    name_foreign(rt, alloc, &mut made, home, Span::new(2, 4), item);
    let mut foreign = interface(rt, alloc, named, &[]);
    foreign.span = Span::new(4, 6);
    made.interfaces = interface_list(rt, alloc, [foreign, interface(rt, alloc, own, &[])]);
    made
}

/// A group of a package, with a file of 15 bytes.
fn group(
    rt: &impl Abort,
    alloc: Global,
    path: &str,
    main: UnresolvedPackage,
) -> UnresolvedPackageGroup {
    parts::group(rt, alloc, path, "package foo:a;\n", main)
}

/// What a push of two groups answers.
pub fn push_two(
    rt: &impl Abort,
    alloc: Global,
    resolve: &mut Resolve,
    main: UnresolvedPackageGroup,
    dep: UnresolvedPackageGroup,
) -> ResolveResult<PackageId> {
    assert!(rt; main.is_shaped(alloc).expect(rt, "memory"));
    assert!(rt; dep.is_shaped(alloc).expect(rt, "memory"));
    let mut deps = Items::new(alloc);
    deps.push(dep).expect(rt, "memory");
    resolve.push_groups(alloc, main, deps)
}

/// The id that is answered, or the number of the refusal, then how many packages and positions there are.
fn outcome(
    rt: &impl Abort,
    alloc: Global,
    resolve: &Resolve,
    pushed: ResolveResult<PackageId>,
) -> String {
    let (count, end) = (resolve.packages().len(), resolve.source_map().end());
    match pushed {
        Ok(id) => {
            let place = id.index();
            format!(in alloc; "package {place} of {count} to {end}").expect(rt, "memory")
        }
        Err(refusal) => {
            let number = refusal.number();
            format!(in alloc; "refused by {number}, {count} to {end}").expect(rt, "memory")
        }
    }
}

/// A package: its name, its interface, and which package it names and which interface of it; empty where it
/// names none.
type Made = (&'static str, &'static str, &'static str, &'static str);

fn made(rt: &impl Abort, alloc: Global, package: Made) -> UnresolvedPackage {
    let (name, own, home, named) = package;
    match home {
        "" => holding(rt, alloc, name, own),
        _ => naming(rt, alloc, name, own, home, named),
    }
}

/// What comes of pushing two packages.
fn pushed(rt: &impl Abort, alloc: Global, main: Made, dep: Made) -> String {
    let mut resolve = Resolve::new(alloc);
    let main = group(rt, alloc, "main.wit", made(rt, alloc, main));
    let dep = group(rt, alloc, "dep.wit", made(rt, alloc, dep));
    let answer = push_two(rt, alloc, &mut resolve, main, dep);
    outcome(rt, alloc, &resolve, answer)
}

/// Two packages, and what comes of their push.
const PAIRS: [(Made, Made, &str); 5] = [
    // The first name is added first.
    (
        ("a", "i", "", ""),
        ("b", "i", "", ""),
        "package 0 of 2 to 32",
    ),
    // A dependency is added first.
    (
        ("a", "j", "dep", "i"),
        ("dep", "i", "", ""),
        "package 1 of 2 to 32",
    ),
    // Packages that name each other, and one that names itself, are refused.
    (
        ("a", "i", "b", "j"),
        ("b", "j", "a", "i"),
        "refused by 6, 0 to 32",
    ),
    (
        ("a", "j", "a", "i"),
        ("b", "i", "", ""),
        "refused by 6, 0 to 32",
    ),
    // A later refusal takes earlier packages back.
    (
        ("a", "i", "", ""),
        ("b", "j", "a", "other"),
        "refused by 3, 0 to 32",
    ),
];

#[test]
fn packages_are_added_all_or_none(rt: HostRuntime) {
    for &(main, dep, wanted) in &PAIRS {
        assert_text(&rt, pushed(&rt, rt.alloc(), main, dep), wanted);
    }
}

/// What comes of a group with a nested package.
fn pushed_nested(rt: &impl Abort, alloc: Global) -> String {
    let mut resolve = Resolve::new(alloc);
    let nested = holding(rt, alloc, "a", "i");
    let mut group = group(rt, alloc, "main.wit", holding(rt, alloc, "b", "i"));
    group.nested.push(nested).expect(rt, "memory");
    assert!(rt; group.is_shaped(alloc).expect(rt, "memory"));
    let answer = resolve.push_group(alloc, group);
    outcome(rt, alloc, &resolve, answer)
}

#[test]
fn a_nested_package_is_added_too(rt: HostRuntime) {
    assert_text(&rt, pushed_nested(&rt, rt.alloc()), "package 1 of 2 to 16");
}

/// What comes of files that end at this position, and of a second file.
fn pushed_files(rt: &impl Abort, alloc: Global, end: u32) -> String {
    let mut resolve = Resolve::new(alloc);
    let mut main = group(rt, alloc, "main.wit", holding(rt, alloc, "a", "i"));
    main.source_map = SourceMap::with_base(alloc, end);
    let dep = group(rt, alloc, "dep.wit", holding(rt, alloc, "b", "i"));
    let answer = push_two(rt, alloc, &mut resolve, main, dep);
    outcome(rt, alloc, &resolve, answer)
}

#[test]
fn files_that_pass_the_end_are_taken_back(rt: HostRuntime) {
    assert_text(
        &rt,
        pushed_files(&rt, rt.alloc(), 4294967279),
        "package 0 of 2 to 4294967295",
    );
    assert_text(
        &rt,
        pushed_files(&rt, rt.alloc(), 4294967280),
        "refused by 27, 0 to 0",
    );
}

/// How a push of two packages of one name is refused.
fn twice(rt: &impl Abort, alloc: Global) -> String {
    let mut resolve = Resolve::new(alloc);
    let main = group(rt, alloc, "a1.wit", holding(rt, alloc, "a", "i"));
    let dep = group(rt, alloc, "a2.wit", holding(rt, alloc, "a", "i"));
    let pushed = push_two(rt, alloc, &mut resolve, main, dep);
    told::told(rt, alloc, "", &resolve, pushed)
}

#[test]
fn a_name_twice_is_told_at_both_places(rt: HostRuntime) {
    assert_text(
        &rt,
        twice(&rt, rt.alloc()),
        "5 at 24-29 name foo:a also at 8-13\n\
        package `foo:a` is defined in two different locations:\n\
        \x20 * a2.wit:1:9\n\
        \x20 * a1.wit:1:9\n\
        graph as before, files a1.wit a2.wit to 32",
    );
}

/// How a push of two packages that name each other is refused.
fn naming_each_other(rt: &impl Abort, alloc: Global) -> String {
    let mut resolve = told::first(rt, alloc);
    let before = shown(rt, alloc, resolve.graph());
    let main = group(rt, alloc, "a.wit", naming(rt, alloc, "a", "i", "b", "j"));
    let dep = group(rt, alloc, "b.wit", naming(rt, alloc, "b", "j", "a", "i"));
    let pushed = push_two(rt, alloc, &mut resolve, main, dep);
    told::told(rt, alloc, before.as_str(), &resolve, pushed)
}

/// How the push of a package alone is refused that names an interface of its own name, where its spans move by 7. Nothing
/// is sorted, so the package counts as there and empty.
fn naming_itself(rt: &impl Abort, alloc: Global) -> String {
    let mut resolve = told::first(rt, alloc);
    let before = shown(rt, alloc, resolve.graph());
    let package = naming(rt, alloc, "a", "j", "a", "i");
    assert!(rt; package.is_shaped(alloc).expect(rt, "memory"));
    let pushed = resolve.push(alloc, package, 7);
    told::told(rt, alloc, before.as_str(), &resolve, pushed)
}

#[test]
fn packages_that_name_themselves_are_told(rt: HostRuntime) {
    assert_text(
        &rt,
        naming_each_other(&rt, rt.alloc()),
        "6 at 77-79 package foo:a\n\
        package `foo:a` creates a dependency cycle\n\
        \x20    --> b.wit:1:3\n\
        \x20     |\n\
        \x20   1 | package foo:a;\n\
        \x20     |   ^-\n\
        graph as before, files first.wit a.wit b.wit to 91",
    );
    assert_text(
        &rt,
        naming_itself(&rt, rt.alloc()),
        "3 at 11-13 interface i package foo:a\n\
        interface 'i' not found in package 'foo:a'\n\
        \x20    --> first.wit:1:12\n\
        \x20     |\n\
        \x20   1 | package foo:first;\n\
        \x20     |            ^-\n\
        graph as before, files first.wit to 59",
    );
}
