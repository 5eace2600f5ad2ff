//! What several tests need.
use std::alloc::Global;
use std::fmt::Write;
use std::process::Abort;
use wit_graph::Graph;
use wit_items::{
    Items, Shape, SourceMap, Text, TryClone, UnresolvedPackage, UnresolvedPackageGroup, Version,
};
use wit_resolve_graph::Resolve;
use wit_script::{Change, Request, read_script};

/// Ends the test where a text isn't the one that is wanted.
pub fn assert_text(rt: &impl Abort, told: String, wanted: &str) {
    assert_eq!(rt; told.as_str(), wanted);
}

pub fn text(rt: &impl Abort, alloc: Global, text: &str) -> Text {
    Text::try_from_str(alloc, text).expect(rt, "memory")
}

/// A file of 24 bytes, which takes 25 positions.
pub fn file(rt: &impl Abort, alloc: Global) -> SourceMap {
    let mut map = SourceMap::new(alloc);
    let contents = String::from_str(alloc, "package a:b;\nworld w {}\n");
    map.push_str(alloc, "m.wit", contents.expect(rt, "memory"))
        .expect(rt, "positions");
    map
}

pub fn version(rt: &impl Abort, alloc: Global, text: &str) -> Version {
    Version::parse(alloc, text).expect(rt, "a version")
}

pub fn list<T: Drop, const N: usize>(rt: &impl Abort, alloc: Global, items: [T; N]) -> Items<T> {
    Items::from_vec(Vec::from_array(alloc, items).expect(rt, "memory"))
}

/// Writes an id, and `-` where there is none.
pub fn write_place(rt: &impl Abort, out: &mut String, place: Option<usize>) {
    match place {
        Some(place) => write!(out, "{place} "),
        None => out.push_str("- "),
    }
    .expect(rt, "memory");
}

/// The groups of the first `push` of a script, the main one first.
pub fn groups(rt: &impl Abort, alloc: Global, script: &str) -> Items<UnresolvedPackageGroup> {
    let commands = read_script(alloc, script).expect(rt, "a script");
    let mut groups = Items::new(alloc);
    for ready in commands.into_vec() {
        if let Request::Change(Change::PushGroups { main, deps }) = ready.into_request() {
            groups.push(main).expect(rt, "memory");
            groups.append(deps).expect(rt, "memory");
        }
    }
    groups
}

/// The package of a script that has one.
pub fn package(rt: &impl Abort, alloc: Global, script: &str) -> UnresolvedPackage {
    let mut groups = groups(rt, alloc, script);
    let group = groups.pop().expect(rt, "a group");
    group.main
}

/// A `Resolve` with the packages of a script, each pushed by itself.
pub fn resolve(rt: &impl Abort, alloc: Global, script: &str) -> Resolve {
    let mut resolve = Resolve::new(alloc);
    for group in groups(rt, alloc, script).into_vec() {
        push(rt, alloc, &mut resolve, group);
    }
    resolve
}

/// Its graph.
pub fn graph(rt: &impl Abort, alloc: Global, script: &str) -> Graph {
    let resolve = resolve(rt, alloc, script);
    resolve.graph().try_clone().expect(rt, "memory")
}

fn push(rt: &impl Abort, alloc: Global, resolve: &mut Resolve, group: UnresolvedPackageGroup) {
    assert!(rt; group.is_shaped(alloc).expect(rt, "memory"));
    let _id = resolve.push_group(alloc, group).expect(rt, "a package");
}
