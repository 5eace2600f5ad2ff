//! The calls of `Resolve` that add, merge and transform, whose names `wit_resolve_graph` gives alone.
use crate::fixtures::{assert_text, file, graph, groups, package, resolve};
use std::alloc::Global;
use std::fmt::Write;
use std::process::Abort;
use wit_resolve_graph::{
    Features, Graph, InterfaceId, Items, PackageId, Resolve, Shape, Span, TrackRule, TryClone,
    TypeId, UnresolvedPackageGroup, WorldId, WorldItem, WorldKey,
};
use wit_script::print_world;

/// What is set and which file is there, of a copy.
fn settings(rt: &impl Abort, alloc: Global) -> String {
    let mut resolve = Resolve::new(alloc);
    resolve.add_feature(alloc, "f").expect(rt, "memory");
    resolve.set_all_features(true);
    resolve.set_track_rule(TrackRule::WithPrereleases);
    let start = resolve.push_source_map(alloc, file(rt, alloc));
    let start = start.expect(rt, "positions");
    let copy = resolve.try_clone().expect(rt, "memory");
    let (count, all, rule) = (
        copy.features().names.len(),
        copy.all_features(),
        copy.track_rule(),
    );
    let place = copy.render_location(alloc, Span::new(13, 18));
    let (place, end) = (place.expect(rt, "memory"), copy.source_map().end());
    format!(in alloc; "{count} {all} {rule:?} {start} {end} {place}").expect(rt, "memory")
}

#[test]
fn a_copy_has_what_is_set(rt: HostRuntime) {
    assert_text(
        &rt,
        settings(&rt, rt.alloc()),
        "1 true WithPrereleases 0 25 m.wit:2:1",
    );
}

/// The last group of a list.
fn last(rt: &impl Abort, groups: &mut Items<UnresolvedPackageGroup>) -> UnresolvedPackageGroup {
    groups.pop().expect(rt, "a group")
}

/// The id of the first of two packages that come together.
fn push_two(rt: &impl Abort, alloc: Global, resolve: &mut Resolve, script: &str) -> PackageId {
    let mut groups = groups(rt, alloc, script);
    let (dep, main) = (last(rt, &mut groups), last(rt, &mut groups));
    assert!(rt; main.is_shaped(alloc).expect(rt, "memory"));
    assert!(rt; dep.is_shaped(alloc).expect(rt, "memory"));
    let mut deps = Items::new(alloc);
    deps.push(dep).expect(rt, "memory");
    resolve
        .push_groups(alloc, main, deps)
        .expect(rt, "packages")
}

/// The ids of a package, of the main one of two, and where those of another graph go.
fn added(rt: &impl Abort, alloc: Global) -> String {
    let mut all = Resolve::new(alloc);
    let package = package(rt, alloc, "package foo:a\ninterface i\npush\n");
    assert!(rt; package.is_shaped(alloc).expect(rt, "memory"));
    let a = all.push(alloc, package, 0).expect(rt, "a package").index();
    let c = push_two(rt, alloc, &mut all, "package foo:c\npackage foo:b\npush\n").index();
    let other = "package foo:d\ninterface i\npush\npackage foo:a\ninterface j\npush\n";
    let remap = all.merge(alloc, resolve(rt, alloc, other));
    let mut out = format!(in alloc; "{a} {c}:").expect(rt, "memory");
    for id in remap.expect(rt, "a merge").packages() {
        let place = id.index();
        write!(out, " {place}").expect(rt, "memory");
    }
    let (packages, named) = (all.packages().len(), all.package_names().len());
    let interfaces = all.interfaces().len();
    write!(out, " of {packages} {named} {interfaces}").expect(rt, "memory");
    assert!(rt; all.assert_valid(alloc).expect(rt, "memory"));
    out
}

#[test]
fn packages_are_added_and_merged(rt: HostRuntime) {
    assert_text(&rt, added(&rt, rt.alloc()), "0 2: 3 0 of 4 4 3");
}

/// Two versions of `x`, `y` that uses the older one, and worlds that import and export it.
const SCRIPT: &str = "package foo:x@0.2.0\n\
    interface x\n\
    type t u32\n\
    push\n\
    package foo:x@0.2.1\n\
    interface x\n\
    type t u32\n\
    push\n\
    package foo:main\n\
    interface y\n\
    use foo:x/x@0.2.0 t\n\
    world w\n\
    import y\n\
    import foo:x/x@0.2.1\n\
    world v\n\
    export y\n\
    push\n";

/// Writes the world of the last package that has this name.
fn write_world(rt: &impl Abort, alloc: Global, out: &mut String, resolve: &Resolve, name: &str) {
    let id = resolve.select_world(alloc, &[PackageId::from_index(2)], Some(name));
    let told = print_world(alloc, resolve, id.expect(rt, "a world"));
    out.push_str(told.expect(rt, "memory").as_str())
        .expect(rt, "memory");
}

/// A world with its imports merged, and another with its exports as imports and with all of these as exports.
fn transformed(rt: &impl Abort, alloc: Global) -> String {
    let mut resolve = resolve(rt, alloc, SCRIPT);
    let mut out = String::new(alloc);
    let main = [PackageId::from_index(2)];
    let w = resolve.select_world(alloc, &main, Some("w"));
    resolve
        .merge_world_imports_based_on_semver(alloc, w.expect(rt, "a world"))
        .expect(rt, "a merge");
    write_world(rt, alloc, &mut out, &resolve, "w");
    let v = resolve.select_world(alloc, &main, Some("v"));
    resolve
        .importize(alloc, v.expect(rt, "a world"), None)
        .expect(rt, "a world");
    write_world(rt, alloc, &mut out, &resolve, "v-importized");
    let v = resolve.select_world(alloc, &main, Some("v-importized"));
    let filter = |_key: &WorldKey, _item: &WorldItem| true;
    let name = String::from_str(alloc, "u").expect(rt, "memory");
    resolve
        .exportize(alloc, v.expect(rt, "a world"), Some(name), Some(filter))
        .expect(rt, "a world");
    write_world(rt, alloc, &mut out, &resolve, "u");
    out
}

#[test]
fn worlds_are_merged_and_transformed(rt: HostRuntime) {
    assert_text(
        &rt,
        transformed(&rt, rt.alloc()),
        "world foo:main/w\n\
        \x20 import foo:x/x@0.2.1\n\
        \x20 import foo:main/y\n\
        world foo:main/v-importized\n\
        \x20 import foo:x/x@0.2.1\n\
        \x20 import foo:main/y\n\
        world foo:main/u\n\
        \x20 export foo:x/x@0.2.1\n\
        \x20 export foo:main/y\n",
    );
}

/// The id of a world by its name, and whether one is found of a package without it and in an empty graph.
fn found(rt: &impl Abort, alloc: Global) -> String {
    let resolve = resolve(rt, alloc, SCRIPT);
    let x = resolve.packages().get(0).expect(rt, "a package");
    let main = resolve.packages().get(2).expect(rt, "a package");
    let v = resolve.world_named(&main.name, "v").expect(rt, "a world");
    let elsewhere = resolve.world_named(&x.name, "v").is_some();
    let nowhere = Resolve::new(alloc).world_named(&main.name, "v").is_some();
    let v = v.index();
    format!(in alloc; "{v} {elsewhere} {nowhere}").expect(rt, "memory")
}

#[test]
fn worlds_are_found_by_their_names(rt: HostRuntime) {
    assert_text(&rt, found(&rt, rt.alloc()), "1 false false");
}

/// The `Resolve` of a graph, with every feature, a file and the rule that counts pre-releases.
fn of_graph(rt: &impl Abort, alloc: Global, graph: Graph) -> Option<Resolve> {
    let mut features = Features::new(alloc);
    features.all = true;
    let rule = TrackRule::WithPrereleases;
    let made = Resolve::of_graph(alloc, graph, features, file(rt, alloc), rule);
    made.expect(rt, "memory")
}

/// What a `Resolve` of a valid graph has, and whether there is none of the same graph without its last world.
fn made_of_graphs(rt: &impl Abort, alloc: Global) -> String {
    let mut spoiled = graph(rt, alloc, SCRIPT);
    spoiled.worlds.truncate(1);
    let refused = of_graph(rt, alloc, spoiled).is_none();
    let made = of_graph(rt, alloc, graph(rt, alloc, SCRIPT)).expect(rt, "a valid graph");
    let (types, interfaces) = (made.types().len(), made.interfaces().len());
    let (packages, worlds) = (made.packages().len(), made.worlds().len());
    let (all, end, rule) = (
        made.all_features(),
        made.source_map().end(),
        made.track_rule(),
    );
    format!(in alloc;
        "{types} {interfaces} {packages} {worlds} {all} {end} {rule:?} {refused}"
    ).expect(rt, "memory")
}

#[test]
fn a_resolve_is_made_of_a_valid_graph_alone(rt: HostRuntime) {
    assert_text(
        &rt,
        made_of_graphs(&rt, rt.alloc()),
        "3 3 3 2 true 25 WithPrereleases true",
    );
}

/// The names of the last type, interface, world and package of a graph, by their ids.
fn last_names(rt: &impl Abort, alloc: Global) -> String {
    let resolve = resolve(rt, alloc, SCRIPT);
    assert!(rt; resolve.types().len() == 3 && resolve.interfaces().len() == 3);
    assert!(rt; resolve.worlds().len() == 2 && resolve.packages().len() == 3);
    let ty = resolve.ty(TypeId::from_index(2));
    let interface = resolve.interface(InterfaceId::from_index(2));
    let world = resolve.world(WorldId::from_index(1));
    let package = resolve.package(PackageId::from_index(2));
    let (ty, interface) = (ty.name.as_ref(), interface.name.as_ref());
    let (ty, interface) = (ty.expect(rt, "a name"), interface.expect(rt, "a name"));
    let (world, package) = (&world.name, &package.name);
    format!(in alloc; "{ty} {interface} {world} {package}").expect(rt, "memory")
}

#[test]
fn things_are_found_by_their_ids(rt: HostRuntime) {
    assert_text(&rt, last_names(&rt, rt.alloc()), "t y v foo:main");
}
