//! The calls of `wit_link`.
use crate::fixtures::{assert_text, groups, list, package, text, write_place};
use std::alloc::Global;
use std::fmt::Write;
use std::process::Abort;
use wit_graph::{Features, Graph, ResolveError, is_valid};
use wit_items::{
    IncludeName, InterfaceId, Items, PackageId, Shape, Span, TypeId, UnresolvedPackage, WorldId,
};
use wit_link::{Remap, append, rename, sort_groups};

/// Lists of a type at id 5, an interface at 6 and a world at 8, each with one that is left out; and of a package at 7.
fn remap(rt: &impl Abort, alloc: Global) -> Remap {
    let types = list(rt, alloc, [Some(TypeId::from_index(5)), None]);
    let interfaces = list(rt, alloc, [Some(InterfaceId::from_index(6)), None]);
    let worlds = list(rt, alloc, [Some(WorldId::from_index(8)), None]);
    let packages = list(rt, alloc, [PackageId::from_index(7)]);
    Remap::from_lists(types, interfaces, worlds, packages)
}

/// All that it has: types, interfaces, worlds and packages.
fn listed(rt: &impl Abort, alloc: Global) -> String {
    let remap = remap(rt, alloc);
    let mut out = String::new(alloc);
    for id in remap.types() {
        write_place(rt, &mut out, id.map(TypeId::index));
    }
    for id in remap.interfaces() {
        write_place(rt, &mut out, id.map(InterfaceId::index));
    }
    for id in remap.worlds() {
        write_place(rt, &mut out, id.map(WorldId::index));
    }
    for id in remap.packages() {
        write_place(rt, &mut out, Some(id.index()));
    }
    out
}

/// The number of a refusal and the position at which its span begins.
fn write_refusal(rt: &impl Abort, out: &mut String, refusal: Option<ResolveError>) {
    let refusal = refusal.expect(rt, "a refusal");
    let (number, start) = (refusal.number(), refusal.kind().span().start());
    write!(out, " {number} at {start}").expect(rt, "memory");
}

/// Where the first things are, and how those that are left out are refused, at position 3.
fn mapped(rt: &impl Abort, alloc: Global) -> String {
    let remap = remap(rt, alloc);
    assert!(rt; remap.types().len() == 2 && remap.interfaces().len() == 2);
    assert!(rt; remap.worlds().len() == 2 && remap.packages().len() == 1);
    let span = Span::new(3, 4);
    let ty = remap.map_type(alloc, TypeId::from_index(0), span);
    let mut out = format!(in alloc; "{}", ty.expect(rt, "a type").index()).expect(rt, "memory");
    let (i, w) = (InterfaceId::from_index(1), WorldId::from_index(1));
    write_refusal(
        rt,
        &mut out,
        remap.map_type(alloc, TypeId::from_index(1), span).err(),
    );
    write_refusal(rt, &mut out, remap.map_interface(alloc, i, span).err());
    write_refusal(
        rt,
        &mut out,
        remap.map_interface_for_type(alloc, i, span).err(),
    );
    write_refusal(rt, &mut out, remap.map_world(alloc, w, span).err());
    write_refusal(rt, &mut out, remap.map_world_for_type(alloc, w, span).err());
    out
}

#[test]
fn things_are_mapped_or_refused(rt: HostRuntime) {
    assert_text(&rt, listed(&rt, rt.alloc()), "5 - 6 - 8 - 7 ");
    assert_text(
        &rt,
        mapped(&rt, rt.alloc()),
        "5 11 at 3 11 at 3 12 at 3 11 at 3 12 at 3",
    );
}

/// Two packages, of which the first names the second.
const SCRIPT: &str = "package foo:a\ninterface i\nuse foo:b/j t\n\
    package foo:b\ninterface j\ntype t u32\npush\n";

/// The names of the packages of the script as they are sorted, each with the offset that it was given.
fn sorted(rt: &impl Abort, alloc: Global) -> String {
    let mut groups = groups(rt, alloc, SCRIPT);
    let b = groups.pop().expect(rt, "a group");
    let a = groups.pop().expect(rt, "a group");
    assert!(rt; a.is_shaped(alloc).expect(rt, "memory"));
    assert!(rt; b.is_shaped(alloc).expect(rt, "memory"));
    let mut packages: Items<(UnresolvedPackage, u32)> = Items::new(alloc);
    packages.push((a.main, 7)).expect(rt, "memory");
    packages.push((b.main, 8)).expect(rt, "memory");
    let mut out = String::new(alloc);
    let sorted = sort_groups(alloc, packages).expect(rt, "an order");
    for (package, offset) in sorted.into_vec() {
        let name = &package.name;
        write!(out, "{name} {offset};").expect(rt, "memory");
    }
    out
}

#[test]
fn groups_are_sorted(rt: HostRuntime) {
    assert_text(&rt, sorted(&rt, rt.alloc()), "foo:b 8;foo:a 7;");
}

const ALONE: &str = "package foo:b\ninterface j\ntype t u32\npush\n";

/// What comes of a package that is added to a graph: its id or the number of the refusal, and how many packages,
/// interfaces and types the graph has then.
fn write_appended(rt: &impl Abort, alloc: Global, out: &mut String, graph: &mut Graph) {
    let package = package(rt, alloc, ALONE);
    assert!(rt; package.is_shaped(alloc).expect(rt, "memory"));
    assert!(rt; is_valid(alloc, graph).expect(rt, "memory"));
    match append(alloc, graph, &Features::new(alloc), package, 0) {
        Ok(id) => write!(out, "at {}", id.index()),
        Err(refusal) => write!(out, "refused {}", refusal.number()),
    }
    .expect(rt, "memory");
    let (packages, interfaces) = (graph.packages.len(), graph.interfaces.len());
    let types = graph.types.len();
    write!(out, " of {packages} {interfaces} {types};").expect(rt, "memory");
}

/// The same package twice.
fn appended(rt: &impl Abort, alloc: Global) -> String {
    let mut graph = Graph::new(alloc);
    let mut out = String::new(alloc);
    write_appended(rt, alloc, &mut out, &mut graph);
    write_appended(rt, alloc, &mut out, &mut graph);
    out
}

#[test]
fn packages_are_appended(rt: HostRuntime) {
    assert_text(
        &rt,
        appended(&rt, rt.alloc()),
        "at 0 of 1 1 1;refused 5 of 1 1 1;",
    );
}

/// A label as a renaming makes it, and `-` where the renaming is of another one.
fn renamed(rt: &impl Abort, alloc: Global, label: &str, from: &str, to: &str) -> String {
    let name = IncludeName {
        name: text(rt, alloc, from),
        as_: text(rt, alloc, to),
    };
    match rename(alloc, label, &name).expect(rt, "memory") {
        Some(label) => label,
        None => String::from_str(alloc, "-").expect(rt, "memory"),
    }
}

#[test]
fn labels_are_renamed(rt: HostRuntime) {
    let alloc = rt.alloc();
    assert_text(
        &rt,
        renamed(&rt, alloc, "[method][get]r.p", "r", "r2"),
        "[method][get]r2.p",
    );
    assert_text(&rt, renamed(&rt, alloc, "[method", "r", "r2"), "-");
    assert_text(&rt, renamed(&rt, alloc, "r.p", "p", "q"), "-");
}
