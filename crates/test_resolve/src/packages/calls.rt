//! Calls that nothing else makes, each once with ample memory: what came in is asked for by its id, and what
//! an error is, is written.
use crate::fixtures::{assert_text, list, string, text};
use crate::packages::parts::{package, world};
use std::alloc::Global;
use std::fmt::Write;
use std::process::Abort;
use wit_data::{
    InterfaceId, Items, Names, PackageId, Span, Table, Text, TryClone, TypeId, Version, WorldId,
    WorldKey,
};
use wit_graph_data::{Cause, Features, ResolveError, ResolveErrorKind};
use wit_resolve_graph::{Remap, Resolve, Shape};

/// The number of the refusal of a package whose spans move so far, or 0.
fn refusal_of(rt: &impl Abort, alloc: Global, resolve: &mut Resolve, offset: u32) -> u32 {
    let mut w = world(rt, alloc, "w");
    w.span = Span::new(30, 37);
    let mut made = package(rt, alloc, "main", "");
    made.worlds.push(w).expect(rt, "memory");
    assert!(rt; made.is_shaped(alloc).expect(rt, "memory"));
    match resolve.push(alloc, made, offset) {
        Ok(_) => 0,
        Err(refusal) => refusal.number(),
    }
}

/// How pushes are refused where spans pass the last position, where they don't, and where the name is taken.
fn refusals(rt: &impl Abort, alloc: Global) -> [u32; 3] {
    let mut resolve = Resolve::new(alloc);
    let passed = refusal_of(rt, alloc, &mut resolve, 4294967295);
    let fitting = refusal_of(rt, alloc, &mut resolve, 7);
    let taken = refusal_of(rt, alloc, &mut resolve, 0);
    [passed, fitting, taken]
}

#[test]
fn a_package_is_pushed_once(rt: HostRuntime) {
    assert_eq!(rt; refusals(&rt, rt.alloc()), [27, 0, 5]);
}

/// Lists of two things each, of which the first has id 5 and the second is left out; and of a package with id 7.
fn remap(rt: &impl Abort, alloc: Global) -> Remap {
    let types = list(rt, alloc, [Some(TypeId::from_index(5)), None]);
    let interfaces = list(rt, alloc, [Some(InterfaceId::from_index(5)), None]);
    let worlds = list(rt, alloc, [Some(WorldId::from_index(5)), None]);
    let packages = list(rt, alloc, [PackageId::from_index(7)]);
    Remap::from_lists(types, interfaces, worlds, packages)
}

/// Writes the number and the span of the refusal that is told of a thing that is left out.
fn write_told(rt: &impl Abort, out: &mut String, refusal: Option<ResolveError>) {
    let refusal = refusal.expect(rt, "a refusal");
    let (number, span) = (refusal.number(), refusal.kind().span());
    let (start, end) = (span.start(), span.end());
    write!(out, " {number} at {start}-{end}").expect(rt, "memory");
}

/// Where type 0 is, and what is told of the things that are left out, at position 3.
fn answers(rt: &impl Abort, alloc: Global) -> String {
    let remap = remap(rt, alloc).try_clone().expect(rt, "memory");
    assert!(rt; remap.types().len() == 2);
    assert!(rt; remap.interfaces().len() == 2);
    assert!(rt; remap.worlds().len() == 2);
    assert!(rt; remap.packages().len() == 1);
    let span = Span::new(3, 4);
    let here = remap.map_type(alloc, TypeId::from_index(0), span);
    let place = here.expect(rt, "a type").index();
    let mut out = format!(in alloc; "{place}").expect(rt, "memory");
    let (interface, world) = (InterfaceId::from_index(1), WorldId::from_index(1));
    write_told(
        rt,
        &mut out,
        remap.map_type(alloc, TypeId::from_index(1), span).err(),
    );
    write_told(
        rt,
        &mut out,
        remap.map_interface(alloc, interface, span).err(),
    );
    write_told(
        rt,
        &mut out,
        remap.map_interface_for_type(alloc, interface, span).err(),
    );
    write_told(rt, &mut out, remap.map_world(alloc, world, span).err());
    write_told(
        rt,
        &mut out,
        remap.map_world_for_type(alloc, world, span).err(),
    );
    out
}

#[test]
fn what_was_handed_in_is_found_or_left_out(rt: HostRuntime) {
    assert_text(
        &rt,
        answers(&rt, rt.alloc()),
        "5 11 at 3-4 11 at 3-4 12 at 3-4 11 at 3-4 12 at 3-4",
    );
}

/// Whether the features that are on stand in their order, after one was turned on twice, and whether all are on.
fn features(rt: &impl Abort, alloc: Global) -> (bool, bool) {
    let mut resolve = Resolve::new(alloc);
    for name in ["g", "f", "g"] {
        resolve.add_feature(alloc, name).expect(rt, "memory");
    }
    let names = &resolve.features().names;
    assert!(rt; names.len() == 2);
    let are_in_order = names.text_at(0) == "g" && names.text_at(1) == "f";
    (are_in_order, resolve.all_features())
}

#[test]
fn features_are_told_in_their_order(rt: HostRuntime) {
    assert!(rt; features(&rt, rt.alloc()) == (true, false));
}

/// The numbers and texts of a version, which is given to `semver` and back.
fn version_parts(rt: &impl Abort, alloc: Global) -> String {
    let version = Version::parse(alloc, "1.2.3-rc.1+b").expect(rt, "a version");
    let version = Version::from_version(alloc, version.into_version()).expect(rt, "memory");
    let kept = version.as_version();
    let (major, minor, patch) = (version.major(), version.minor(), version.patch());
    let (pre, build) = (version.pre(), version.build());
    format!(in alloc; "{kept} {major} {minor} {patch} {pre} {build}").expect(rt, "memory")
}

#[test]
fn versions_have_their_parts(rt: HostRuntime) {
    assert_text(
        &rt,
        version_parts(&rt, rt.alloc()),
        "1.2.3-rc.1+b 1 2 3 rc.1 b",
    );
}

/// What is empty of a `Resolve` to which nothing was pushed, and a text.
fn empty_ones(alloc: Global) -> [bool; 3] {
    let text = Text::new(alloc);
    let resolve = Resolve::new(alloc);
    [
        text.is_empty(),
        resolve.features().names.is_empty(),
        resolve.source_map().is_empty(),
    ]
}

/// Whether a list, a table and names, each made by the allocator of another one, are empty.
fn made_by_others(rt: &impl Abort, alloc: Global) -> [bool; 3] {
    let features = Features::new(alloc);
    let mut items = Items::new(features.names.allocator());
    items.push(features.names.len()).expect(rt, "memory");
    let table: Table<WorldKey, usize> = Table::new(items.allocator());
    let names: Names<usize> = Names::new(table.allocator());
    let more: Items<usize> = Items::new(names.allocator());
    [
        items.is_empty(),
        table.is_empty() && names.is_empty(),
        more.is_empty(),
    ]
}

#[test]
fn what_is_empty_is_told(rt: HostRuntime) {
    assert!(rt; empty_ones(rt.alloc()) == [true, true, true]);
    assert!(rt; made_by_others(&rt, rt.alloc()) == [false, true, true]);
}

/// An error whose kind is written anew.
fn written_error(rt: &impl Abort, alloc: Global) -> String {
    let mut error = ResolveError::new_semantic(Span::unknown(), string(rt, alloc, "bad"));
    let message = text(rt, alloc, "worse");
    *error.kind_mut() = ResolveErrorKind::Semantic {
        span: Span::new(3, 4),
        message,
        cause: Cause::WorldSelection,
    };
    let number = error.number();
    format!(in alloc; "{number} {error}").expect(rt, "memory")
}

#[test]
fn errors_are_written_anew(rt: HostRuntime) {
    assert_text(&rt, written_error(&rt, rt.alloc()), "26 worse");
}
