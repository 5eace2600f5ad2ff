//! Files of groups: a group whose package brings the same file twice.
use crate::fixtures::assert_text;
use crate::packages::parts::{file, group, interface, package, place, push_group};
use crate::packages::shown::shown;
use crate::packages::told::told;
use std::alloc::Global;
use std::fmt::Write;
use std::process::Abort;
use wit_data::{Span, UnresolvedPackage, UnresolvedPackageGroup};
use wit_resolve_graph::Resolve;

const CONTENTS: &str = "package foo:same;\n\ninterface a {}\n";

/// A package with an interface at the words that follow `interface`, in a copy of the file that begins there.
fn in_copy(rt: &impl Abort, alloc: Global, name: &str, start: u32) -> UnresolvedPackage {
    let word = place(rt, CONTENTS, "a {}");
    let mut a = interface(rt, alloc, "a", &[]);
    a.span = moved(rt, word, start);
    let mut made = package(rt, alloc, name, "");
    made.package_name_span = moved(rt, place(rt, CONTENTS, "foo:same"), start);
    made.interfaces.push(a).expect(rt, "memory");
    made
}

fn moved(rt: &impl Abort, span: Span, offset: u32) -> Span {
    span.moved(offset).expect(rt, "a position")
}

/// A group with the same file twice: the nested package is in the first, the main one in the second.
fn twice(rt: &impl Abort, alloc: Global, nested: &str, main: &str) -> UnresolvedPackageGroup {
    let main = in_copy(rt, alloc, main, 35);
    let mut made = group(rt, alloc, "same.wit", CONTENTS, main);
    let again = file(rt, alloc, "same.wit", CONTENTS);
    let start = made.source_map.append(alloc, again).expect(rt, "positions");
    assert_eq!(rt; start, 35);
    made.nested
        .push(in_copy(rt, alloc, nested, 0))
        .expect(rt, "memory");
    made
}

/// Where the interfaces of two groups begin, and how a third one with one name twice is refused.
fn outcome(rt: &impl Abort, alloc: Global) -> String {
    let mut resolve = Resolve::new(alloc);
    let first = twice(rt, alloc, "b", "c");
    push_group(rt, alloc, &mut resolve, first).expect(rt, "a package");
    let second = twice(rt, alloc, "d", "e");
    push_group(rt, alloc, &mut resolve, second).expect(rt, "a package");
    let before = shown(rt, alloc, resolve.graph());
    let third = twice(rt, alloc, "same", "same");
    let pushed = push_group(rt, alloc, &mut resolve, third);
    let refusal = told(rt, alloc, before.as_str(), &resolve, pushed);
    let starts = starts(rt, alloc, &resolve);
    format!(in alloc; "{starts}{refusal}").expect(rt, "memory")
}

fn starts(rt: &impl Abort, alloc: Global, resolve: &Resolve) -> String {
    let mut out = String::new(alloc);
    for interface in resolve.interfaces() {
        let start = interface.span.start();
        writeln!(out, "{start}").expect(rt, "memory");
    }
    out
}

#[test]
fn a_file_may_be_handed_in_twice(rt: HostRuntime) {
    assert_text(
        &rt,
        outcome(&rt, rt.alloc()),
        "29\n\
        64\n\
        99\n\
        134\n\
        5 at 183-191 name foo:same also at 148-156\n\
        package `foo:same` is defined in two different locations:\n\
        \x20 * same.wit:1:9\n\
        \x20 * same.wit:1:9\n\
        graph as before, files same.wit same.wit same.wit same.wit same.wit same.wit to 210",
    );
}
