//! The last position, and one past it: of spans that move with their package, and of files.
use crate::fixtures::assert_text;
use crate::packages::groups::push_two;
use crate::packages::parts::{file, group, interface, interface_list, package};
use crate::packages::shown::shown;
use crate::packages::told::{first, told, write_files};
use std::alloc::Global;
use std::fmt::Write;
use std::process::Abort;
use wit_data::{SourceMap, Span, UnresolvedPackage};
use wit_resolve_graph::{Resolve, Shape};

/// A package with an interface that has this span.
fn text_between(rt: &impl Abort, alloc: Global, name: &str, span: Span) -> UnresolvedPackage {
    let mut i = interface(rt, alloc, "i", &[]);
    i.span = span;
    let mut made = package(rt, alloc, name, "");
    made.interfaces = interface_list(rt, alloc, [i]);
    made
}

/// What the graph holds after such a package was moved so far, or how it is refused.
fn pushed_at(rt: &impl Abort, alloc: Global, span: Span, offset: u32) -> String {
    let mut resolve = Resolve::new(alloc);
    let before = shown(rt, alloc, resolve.graph());
    let made = text_between(rt, alloc, "main", span);
    assert!(rt; made.is_shaped(alloc).expect(rt, "memory"));
    match resolve.push(alloc, made, offset) {
        Ok(_) => shown(rt, alloc, resolve.graph()),
        Err(refusal) => told(rt, alloc, before.as_str(), &resolve, Err(refusal)),
    }
}

const PASSED: &str = "27 at 0-0\n\
    source positions would pass 4294967295\n\
    graph as before, files to 0";

#[test]
fn spans_move_up_to_the_last_position(rt: HostRuntime) {
    let alloc = rt.alloc();
    assert_text(
        &rt,
        pushed_at(&rt, alloc, Span::new(8, 10), 4294967285),
        "package 0 foo:main\n\
        \x20 interface i 0\n\
        named foo:main 0\n\
        interface 0 i of package 0 at 4294967293-4294967295\n",
    );
    assert_text(
        &rt,
        pushed_at(&rt, alloc, Span::new(8, 10), 4294967286),
        PASSED,
    );
    assert_text(
        &rt,
        pushed_at(&rt, alloc, Span::unknown(), 4294967295),
        "package 0 foo:main\n\
        \x20 interface i 0\n\
        named foo:main 0\n\
        interface 0 i of package 0\n",
    );
}

/// Where a file begins behind all but five positions, or how it is refused, and the files then.
fn file_at_the_end(rt: &impl Abort, alloc: Global, contents: &str) -> String {
    let mut resolve = Resolve::new(alloc);
    let base = SourceMap::with_base(alloc, 4294967290);
    resolve.push_source_map(alloc, base).expect(rt, "positions");
    let mut out = String::new(alloc);
    for path in ["m.wit", "n.wit"] {
        match resolve.push_source_map(alloc, file(rt, alloc, path, contents)) {
            Ok(offset) => write!(out, "at {offset}").expect(rt, "memory"),
            Err(refusal) => write!(out, "{}", refusal.number()).expect(rt, "memory"),
        }
        out.push_str(", files").expect(rt, "memory");
        write_files(&mut out, &resolve).expect(rt, "memory");
        out.push_str(";").expect(rt, "memory");
    }
    out
}

#[test]
fn files_stand_up_to_the_last_position(rt: HostRuntime) {
    assert_text(
        &rt,
        file_at_the_end(&rt, rt.alloc(), "1234"),
        "at 4294967290, files m.wit to 4294967295;27, files m.wit to 4294967295;",
    );
    assert_text(
        &rt,
        file_at_the_end(&rt, rt.alloc(), "12345"),
        "27, files to 4294967290;27, files to 4294967290;",
    );
}

/// What comes of two groups, where the first file ends at 59. The main one, of `foo:a`, has a file of five positions, and
/// behind it all but five of those that are left; the second one has this name and a file with these contents.
fn two_groups(rt: &impl Abort, alloc: Global, name: &str, contents: &str) -> String {
    let mut resolve = first(rt, alloc);
    let before = shown(rt, alloc, resolve.graph());
    let main = text_between(rt, alloc, "a", Span::unknown());
    let mut main = group(rt, alloc, "main.wit", "1234", main);
    main.source_map
        .append(alloc, SourceMap::with_base(alloc, 4294967226))
        .expect(rt, "positions");
    let dep = text_between(rt, alloc, name, Span::unknown());
    let dep = group(rt, alloc, "dep.wit", contents, dep);
    match push_two(rt, alloc, &mut resolve, main, dep) {
        Ok(id) => {
            let mut out = format!(in alloc; "package {}, files", id.index()).expect(rt, "memory");
            write_files(&mut out, &resolve).expect(rt, "memory");
            out
        }
        Err(refusal) => told(rt, alloc, before.as_str(), &resolve, Err(refusal)),
    }
}

/// No file stays, not even that of the main group.
const NONE_STAYS: &str = "27 at 0-0\n\
    source positions would pass 4294967295\n\
    graph as before, files first.wit to 59";

/// The name of the second package, the contents of its file, and what comes of it. That a name is there twice is told
/// only where the files fit.
const SECOND_GROUPS: [(&str, &str, &str); 4] = [
    (
        "b",
        "1234",
        "package 1, files first.wit main.wit dep.wit to 4294967295",
    ),
    ("b", "12345", NONE_STAYS),
    (
        "a",
        "1234",
        "5 at 0-0 name foo:a also at 0-0\n\
        package `foo:a` is defined in two different locations:\n\
        \x20 * <unknown>\n\
        \x20 * <unknown>\n\
        graph as before, files first.wit main.wit dep.wit to 4294967295",
    ),
    ("a", "12345", NONE_STAYS),
];

#[test]
fn files_of_a_second_group_fit_or_none_stays(rt: HostRuntime) {
    for &(name, contents, wanted) in &SECOND_GROUPS {
        assert_text(&rt, two_groups(&rt, rt.alloc(), name, contents), wanted);
    }
}
