//! The calls of `wit_unite`.
use crate::fixtures::{assert_text, graph};
use std::alloc::Global;
use std::fmt::Write;
use std::process::Abort;
use wit_graph::{Graph, is_valid};
use wit_items::{TrackRule, WorldId, WorldItem, WorldKey};
use wit_unite::{Remap, exportize, importize, merge_by_track, unite};

/// How many packages, interfaces and worlds a graph has.
fn counts(graph: &Graph) -> [usize; 3] {
    [
        graph.packages.len(),
        graph.interfaces.len(),
        graph.worlds.len(),
    ]
}

/// One graph of two: what it has, and where the interfaces of the one that goes in are.
fn merged(rt: &impl Abort, alloc: Global) -> String {
    let first = graph(rt, alloc, "package foo:a\ninterface i\ntype t u32\npush\n");
    let other = graph(
        rt,
        alloc,
        "package foo:b\ninterface j\ntype t u32\npush\npackage foo:a\ninterface i\ntype t u32\npush\n",
    );
    assert!(rt; is_valid(alloc, &first).expect(rt, "memory"));
    assert!(rt; is_valid(alloc, &other).expect(rt, "memory"));
    let (whole, remap): (Graph, Remap) = unite(alloc, &first, other, 0).expect(rt, "a graph");
    assert!(rt; is_valid(alloc, &whole).expect(rt, "memory"));
    let [packages, interfaces, worlds] = counts(&whole);
    let mut out = format!(in alloc; "{packages} {interfaces} {worlds}:").expect(rt, "memory");
    for id in remap.interfaces() {
        let place = id.expect(rt, "an interface").index();
        write!(out, " {place}").expect(rt, "memory");
    }
    for id in remap.packages() {
        let place = id.index();
        write!(out, " {place}").expect(rt, "memory");
    }
    out
}

#[test]
fn graphs_are_merged(rt: HostRuntime) {
    assert_text(&rt, merged(&rt, rt.alloc()), "2 2 0: 1 0 1 0");
}

const SCRIPT: &str = "package foo:bar\n\
    interface types\n\
    type t u32\n\
    interface api\n\
    use types t\n\
    world w\n\
    export api\n\
    push\n";

/// The name of the world, and how much it imports and exports.
fn world(rt: &impl Abort, alloc: Global, graph: &Graph) -> String {
    assert!(rt; !graph.worlds.is_empty());
    let world = graph.worlds.at(0);
    let name = &world.name;
    let (imports, exports) = (world.imports.len(), world.exports.len());
    format!(in alloc; "{name} {imports} {exports}").expect(rt, "memory")
}

/// The world with its exports as imports.
fn importized(rt: &impl Abort, alloc: Global) -> Graph {
    let mut graph = graph(rt, alloc, SCRIPT);
    assert!(rt; graph.worlds.len() == 1);
    assert!(rt; is_valid(alloc, &graph).expect(rt, "memory"));
    importize(alloc, &mut graph, WorldId::from_index(0), None).expect(rt, "a world");
    graph
}

/// And with its imports as exports.
fn exportized(rt: &impl Abort, alloc: Global) -> Graph {
    let mut graph = importized(rt, alloc);
    assert!(rt; graph.worlds.len() == 1);
    assert!(rt; is_valid(alloc, &graph).expect(rt, "memory"));
    let filter = |_key: &WorldKey, _item: &WorldItem| true;
    exportize(
        alloc,
        &mut graph,
        WorldId::from_index(0),
        Some(String::from_str(alloc, "v").expect(rt, "memory")),
        Some(filter),
    )
    .expect(rt, "a world");
    graph
}

#[test]
fn worlds_are_transformed(rt: HostRuntime) {
    let alloc = rt.alloc();
    let first = importized(&rt, alloc);
    assert_text(&rt, world(&rt, alloc, &first), "w-importized 2 0");
    drop(first);
    let second = exportized(&rt, alloc);
    assert_text(&rt, world(&rt, alloc, &second), "v 0 2");
}

const VERSIONS: &str = "package foo:x@0.2.0\n\
    interface x\n\
    type t u32\n\
    push\n\
    package foo:x@0.2.1-rc.1\n\
    interface x\n\
    type t u32\n\
    push\n\
    package foo:main\n\
    world w\n\
    import foo:x/x@0.2.0\n\
    import foo:x/x@0.2.1-rc.1\n\
    push\n";

/// How much the world imports when its imports are merged by a rule.
fn semver_merged(rt: &impl Abort, alloc: Global, rule: TrackRule) -> String {
    let mut graph = graph(rt, alloc, VERSIONS);
    assert!(rt; graph.worlds.len() == 1);
    assert!(rt; is_valid(alloc, &graph).expect(rt, "memory"));
    merge_by_track(alloc, &mut graph, WorldId::from_index(0), rule).expect(rt, "a world");
    world(rt, alloc, &graph)
}

#[test]
fn imports_are_merged_by_each_rule(rt: HostRuntime) {
    let alloc = rt.alloc();
    assert_text(
        &rt,
        semver_merged(&rt, alloc, TrackRule::Published),
        "w 2 0",
    );
    assert_text(
        &rt,
        semver_merged(&rt, alloc, TrackRule::WithPrereleases),
        "w 1 0",
    );
}
