//! The calls of a `Resolve` that no script makes, each once with ample memory. The package is read from a
//! script.
use crate::calls::fixtures::{assert_valid, resolve_of};
use crate::fixtures::assert_text;
use std::alloc::Global;
use std::process::Abort;
use wit_data::{InterfaceId, PackageId, SourceMap, TryClone, WorldId, WorldKey};
use wit_resolve_graph::Resolve;
use wit_script::print_world;

/// Interface `a` with type `t`, `b` which uses it, and world `w`, which imports `b`.
const SCRIPT: &str = "package foo:bar\n\
    interface a\n\
    type t u32\n\
    interface b\n\
    use a t\n\
    world w\n\
    import b\n\
    push\n";

/// Where files are put that end at this position, or the number of the refusal.
fn files_at(alloc: Global, resolve: &mut Resolve, end: u32) -> Result<u32, u32> {
    match resolve.push_source_map(alloc, SourceMap::with_base(alloc, end)) {
        Ok(offset) => Ok(offset),
        Err(refusal) => Err(refusal.number()),
    }
}

fn pushed_files(alloc: Global) -> [Result<u32, u32>; 3] {
    let mut resolve = Resolve::new(alloc);
    let first = files_at(alloc, &mut resolve, 20);
    let second = files_at(alloc, &mut resolve, 7);
    let passed = files_at(alloc, &mut resolve, 4294967269);
    [first, second, passed]
}

#[test]
fn files_stand_at_the_end(rt: HostRuntime) {
    assert_eq!(rt; pushed_files(rt.alloc()), [Ok(0), Ok(20), Err(27)]);
}

/// A `Resolve` with the package, copied.
fn resolve(rt: &impl Abort, alloc: Global) -> Resolve {
    let resolve = resolve_of(rt, alloc, SCRIPT);
    let copy = resolve.try_clone().expect(rt, "memory");
    assert_valid(rt, alloc, &copy);
    copy
}

/// The id texts of interface `b` and of world `w`, and the name of a key.
fn id_texts(rt: &impl Abort, alloc: Global) -> String {
    let resolve = resolve(rt, alloc);
    let interface = resolve
        .id_of(alloc, InterfaceId::from_index(1))
        .expect(rt, "memory")
        .expect(rt, "a name");
    let world = resolve
        .id_of_name(alloc, PackageId::from_index(0), "w")
        .expect(rt, "memory");
    let key = WorldKey::Interface(InterfaceId::from_index(0));
    let key = resolve.name_world_key(alloc, &key).expect(rt, "memory");
    format!(in alloc; "{interface} {world} {key}").expect(rt, "memory")
}

#[test]
fn things_have_their_id_texts(rt: HostRuntime) {
    assert_text(
        &rt,
        id_texts(&rt, rt.alloc()),
        "foo:bar/b foo:bar/w foo:bar/a",
    );
}

/// World `w` as it is printed, and one that isn't there.
fn printed(rt: &impl Abort, alloc: Global) -> String {
    let resolve = resolve(rt, alloc);
    let there = print_world(alloc, &resolve, WorldId::from_index(0)).expect(rt, "memory");
    let absent = print_world(alloc, &resolve, WorldId::from_index(1)).expect(rt, "memory");
    format!(in alloc; "{there}{absent}.").expect(rt, "memory")
}

#[test]
fn worlds_are_printed(rt: HostRuntime) {
    assert_text(
        &rt,
        printed(&rt, rt.alloc()),
        "world foo:bar/w\n\
        \x20 import foo:bar/a\n\
        \x20 import foo:bar/b\n\
        .",
    );
}

/// A `Resolve` as a program shows it to its programmer.
fn shown(rt: &impl Abort, alloc: Global) -> String {
    let resolve = resolve(rt, alloc);
    format!(in alloc; "{resolve:?}").expect(rt, "memory")
}

#[test]
fn packages_are_shown_by_name(rt: HostRuntime) {
    let shown = shown(&rt, rt.alloc());
    assert!(rt;
        shown
            .as_str()
            .contains("PackageName { namespace: \"foo\", name: \"bar\"")
    );
}
