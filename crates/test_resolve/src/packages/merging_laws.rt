//! Merges of two graphs in all their names: with a copy of itself, with an empty one, in either order, and where a package
//! comes to use a later one.
use crate::fixtures::assert_text;
use crate::packages::merging::write_remap;
use crate::packages::scripts::pushed;
use crate::packages::shown::shown;
use crate::packages::told::write_files;
use std::alloc::Global;
use std::fmt::Write;
use std::process::Abort;
use wit_data::{Interface, PackageId, Table, TryClone, WorldItem, WorldKey};
use wit_resolve_graph::Resolve;

/// Two packages with a resource, functions, worlds of all sorts of entries, and types without names.
const WHOLE: &str = "package foo:a@1.0.0\n\
    interface i\n\
    resource r\n\
    func [constructor]r()->r\n\
    func f(x:borrow<r>)->list<option<u32>>\n\
    interface j\n\
    use i r\n\
    record p a:r b:u8\n\
    world w\n\
    type k list<u8>\n\
    import j\n\
    import-func g(x:k)\n\
    import lab=i\n\
    export i\n\
    push\n\
    package foo:b\n\
    interface h\n\
    use foo:a/j@1.0.0 p\n\
    world v\n\
    include foo:a/w@1.0.0 k=key\n\
    import h\n\
    push\n";

/// Where the things of a copy go, and what the graph holds behind what it held.
fn merged_with_itself(rt: &impl Abort, alloc: Global) -> String {
    let mut resolve = pushed(rt, alloc, WHOLE);
    let before = shown(rt, alloc, resolve.graph());
    let other = resolve.try_clone().expect(rt, "memory");
    let remap = resolve.merge(alloc, other).expect(rt, "a merge");
    assert!(rt; resolve.assert_valid(alloc).expect(rt, "memory"));
    let mut out = String::new(alloc);
    write_remap(&mut out, &remap).expect(rt, "memory");
    let after = shown(rt, alloc, resolve.graph());
    let behind = after.as_str().strip_prefix(before.as_str());
    out.push_str(behind.expect(rt, "what was there"))
        .expect(rt, "memory");
    out.push_str("files").expect(rt, "memory");
    write_files(&mut out, &resolve).expect(rt, "memory");
    out
}

/// All that has a name stays where it was. What has none comes once more, and is named by nothing that was there.
const MERGED_WITH_ITSELF: &str =
    "type 0 type 11 type 12 type 13 type 4 type 5 type 6 type 14 type 15 type 9 type 10 interface 0 interface 1 interface 2 world 0 world 1 package 0 package 1 \n\
    type #11: borrow #0 at 380-418\n\
    type #12: option u32 at 380-418\n\
    type #13: list #12 at 380-418\n\
    type #14: own #0\n\
    type #15: own #4\n\
    files foo:a@1.0.0 foo:b foo:a@1.0.0 foo:b to 624";

#[test]
fn a_graph_goes_into_itself(rt: HostRuntime) {
    assert_text(&rt, merged_with_itself(&rt, rt.alloc()), MERGED_WITH_ITSELF);
}

/// Where the things of a graph go, and its files, once it goes into another one of which one of the two is empty; it ends
/// the test where the graph isn't, in all its data, what the other one was.
fn merged_with_nothing(
    rt: &impl Abort,
    alloc: Global,
    whole: &Resolve,
    into: Resolve,
    other: Resolve,
) -> String {
    let mut resolve = into;
    let remap = resolve.merge(alloc, other).expect(rt, "a merge");
    assert!(rt; resolve.assert_valid(alloc).expect(rt, "memory"));
    let wanted = shown(rt, alloc, whole.graph());
    assert_text(rt, shown(rt, alloc, resolve.graph()), wanted.as_str());
    let mut out = String::new(alloc);
    write_remap(&mut out, &remap).expect(rt, "memory");
    write_files(&mut out, &resolve).expect(rt, "memory");
    out
}

/// All stays at its id, or goes to it.
const INTO_NOTHING: &str =
    "type 0 type 1 type 2 type 3 type 4 type 5 type 6 type 7 type 8 type 9 type 10 interface 0 interface 1 interface 2 world 0 world 1 package 0 package 1 \n\
    \x20foo:a@1.0.0 foo:b to 312";

#[test]
fn an_empty_graph_goes_into_one_and_takes_one(rt: HostRuntime) {
    let alloc = rt.alloc();
    let whole = pushed(&rt, alloc, WHOLE);
    let copy = whole.try_clone().expect(&rt, "memory");
    assert_text(
        &rt,
        merged_with_nothing(&rt, alloc, &whole, copy, Resolve::new(alloc)),
        "\n foo:a@1.0.0 foo:b to 312",
    );
    let copy = whole.try_clone().expect(&rt, "memory");
    assert_text(
        &rt,
        merged_with_nothing(&rt, alloc, &whole, Resolve::new(alloc), copy),
        INTO_NOTHING,
    );
}

/// A graph after another one went in.
fn merged(rt: &impl Abort, alloc: Global, script: &str, other: &str) -> Resolve {
    let mut resolve = pushed(rt, alloc, script);
    let other = pushed(rt, alloc, other);
    drop(resolve.merge(alloc, other).expect(rt, "a merge"));
    assert!(rt; resolve.assert_valid(alloc).expect(rt, "memory"));
    resolve
}

/// Writes which of the names of either graph an interface has, and how many names it has.
fn write_names(rt: &impl Abort, out: &mut String, interface: &Interface) {
    for name in ["f", "g", "h", "t", "u", "v"] {
        if interface.types.contains_key(name) {
            write!(out, "type {name} ").expect(rt, "memory");
        }
        if interface.functions.contains_key(name) {
            write!(out, "func {name} ").expect(rt, "memory");
        }
    }
    let (types, functions) = (interface.types.len(), interface.functions.len());
    write!(out, "of {types} and {functions}\n").expect(rt, "memory");
}

/// Writes the entries of a world: each key, and what stands there.
fn write_entries(
    rt: &impl Abort,
    alloc: Global,
    out: &mut String,
    resolve: &Resolve,
    entries: &Table<WorldKey, WorldItem>,
) {
    for (key, item) in entries.iter() {
        let key = resolve.name_world_key(alloc, key).expect(rt, "memory");
        let told = match item {
            WorldItem::Interface { id, .. } => resolve.id_of(alloc, *id).expect(rt, "memory"),
            WorldItem::Function(_) => None,
            WorldItem::Type_ { .. } => None,
        };
        let told = told.unwrap_or(String::new(alloc));
        write!(out, " {key}={told}").expect(rt, "memory");
    }
}

/// How many packages, interfaces, worlds and types there are, the names of the interfaces of the first package, and the
/// entries of its worlds.
fn names(rt: &impl Abort, alloc: Global, script: &str, other: &str) -> String {
    let resolve = merged(rt, alloc, script, other);
    let home = resolve.packages().first().expect(rt, "a package");
    let (packages, interfaces) = (resolve.packages().len(), resolve.interfaces().len());
    let (worlds, types) = (resolve.worlds().len(), resolve.types().len());
    let out = format!(in alloc; "{packages} {interfaces} {worlds} {types}\n");
    let mut out = out.expect(rt, "memory");
    for name in ["i", "j", "z"] {
        let id = home.interfaces.get(name).expect(rt, "an interface");
        let interface = resolve.interfaces().get(id.index());
        write_names(rt, &mut out, interface.expect(rt, "an interface"));
    }
    for name in ["v", "w", "x"] {
        let id = home.worlds.get(name).expect(rt, "a world");
        let world = resolve.worlds().get(id.index()).expect(rt, "a world");
        write!(out, "{name}:").expect(rt, "memory");
        write_entries(rt, alloc, &mut out, &resolve, &world.imports);
        out.push_str(" ->").expect(rt, "memory");
        write_entries(rt, alloc, &mut out, &resolve, &world.exports);
        out.push_str("\n").expect(rt, "memory");
    }
    out
}

const ONE: &str = "package foo:bar\n\
    interface i\n\
    type t u32\n\
    type u u32\n\
    func f(x:t)\n\
    func g(x:u)\n\
    interface z\n\
    use i u\n\
    world w\n\
    import i\n\
    import-func k()\n\
    world x\n\
    export z\n\
    push\n";

const OTHER: &str = "package foo:bar\n\
    interface i\n\
    type v u32\n\
    type t u32\n\
    func h(x:v)\n\
    func f(x:t)\n\
    interface j\n\
    use i v\n\
    world v\n\
    type t u8\n\
    import lab=j\n\
    world w\n\
    import-func k()\n\
    import i\n\
    push\n";

const NAMES: &str = "1 3 3 6\n\
    func f func g func h type t type u type v of 3 and 3\n\
    type v of 1 and 0\n\
    type u of 1 and 0\n\
    v: foo:bar/i=foo:bar/i lab=foo:bar/j t= ->\n\
    w: foo:bar/i=foo:bar/i k= ->\n\
    x: foo:bar/i=foo:bar/i -> foo:bar/z=foo:bar/z\n";

#[test]
fn either_order_gives_the_same_names(rt: HostRuntime) {
    assert_text(&rt, names(&rt, rt.alloc(), ONE, OTHER), NAMES);
    assert_text(&rt, names(&rt, rt.alloc(), OTHER, ONE), NAMES);
}

/// Which packages each package depends on, and the packages, dependencies first.
fn dependencies(rt: &impl Abort, alloc: Global) -> String {
    let other = "package foo:b\ninterface k\ntype v u32\npush\n\
        package foo:a\ninterface h\nuse foo:b/k v\nworld w\nimport foo:b/k\npush\n";
    let resolve = merged(rt, alloc, "package foo:a\ninterface i\npush\n", other);
    assert_eq!(rt; resolve.packages().len(), 2);
    let mut out = String::new(alloc);
    for used in resolve.package_direct_deps(PackageId::from_index(0)) {
        let place = used.index();
        write!(out, "0 depends on {place};").expect(rt, "memory");
    }
    for used in resolve.package_direct_deps(PackageId::from_index(1)) {
        let place = used.index();
        write!(out, "1 depends on {place};").expect(rt, "memory");
    }
    for id in &resolve.topological_packages(alloc).expect(rt, "memory") {
        let place = id.index();
        write!(out, "{place};").expect(rt, "memory");
    }
    out
}

#[test]
fn a_package_that_comes_to_use_a_later_one_is_listed_behind_it(rt: HostRuntime) {
    assert_text(
        &rt,
        dependencies(&rt, rt.alloc()),
        "0 depends on 1;0 depends on 1;1;0;",
    );
}
