//! Packages that are added to a bare graph with its caches, which then are those of the new graph: what each call answers,
//! and the whole graph behind it.
ghost use Rattle.wit_elaboration.specs.Valid.{IsValid};
ghost use Rattle.wit_link.specs.Appending.{AreCachesOf};

use crate::fixtures::assert_text;
use crate::packages::scripts::{group, pushed};
use crate::packages::shown::shown;
use crate::packages::told::write_refusal;
use std::alloc::{AllocError, Global};
use std::fmt::Write;
use std::process::Abort;
use wit_data::{Items, PackageId, TryClone};
use wit_graph_data::{Features, Graph, ResolveResult};
use wit_link::{GraphCaches, append_all_with, append_with};
use wit_resolve_graph::Shape;
use wit_validity::is_valid;

/// What is there: interface 1 uses interface 0, which has a resource.
const FIRST: &str = "package foo:first\n\
    interface a\n\
    resource t\n\
    interface b\n\
    use a t\n\
    push\n";

/// Interface 2 uses interface 1 and takes the resource, and the world imports all three.
const MAIN: &str = "package foo:main\n\
    interface c\n\
    use foo:first/b t\n\
    func f(x:t)\n\
    world w\n\
    import c\n";

/// A second world that exports what it would need from outside.
const REFUSED: &str = "package foo:refused\n\
    interface d\n\
    type t u32\n\
    interface e\n\
    use d t\n\
    interface f\n\
    use d t\n\
    use e t t2\n\
    world v\n\
    import f\n\
    world w\n\
    export d\n\
    export f\n";

/// Interface 3 uses interface 2 and takes the resource, and the world exports it.
const LAST: &str = "package foo:last\n\
    interface g\n\
    use foo:main/c t\n\
    func f(x:t)\n\
    world w\n\
    export g\n";

/// The graph of the three packages.
const GRAPH: &str = "package 0 foo:first\n\
    \x20 interface a 0\n\
    \x20 interface b 1\n\
    package 1 foo:main\n\
    \x20 interface c 2\n\
    \x20 world w 0\n\
    package 2 foo:last\n\
    \x20 interface g 3\n\
    \x20 world w 1\n\
    named foo:first 0\n\
    named foo:main 1\n\
    named foo:last 2\n\
    interface 0 a of package 0 at 18-29\n\
    \x20 type t 0\n\
    interface 1 b of package 0 at 41-52\n\
    \x20 type t 1\n\
    interface 2 c of package 1 at 117-128\n\
    \x20 type t 2\n\
    \x20 f: func f(x: #3 at 147-158;) at 147-158\n\
    interface 3 g of package 2 at 317-328\n\
    \x20 type t 4\n\
    \x20 f: func f(x: #5 at 346-357;) at 346-357\n\
    world 0 w of package 1 at 159-166 includes 0\n\
    \x20 import 0: interface 0\n\
    \x20 import 1: interface 1\n\
    \x20 import 2: interface 2\n\
    world 1 w of package 2 at 358-365 includes 0\n\
    \x20 import 0: interface 0\n\
    \x20 import 1: interface 1\n\
    \x20 import 2: interface 2\n\
    \x20 export 3: interface 3 at 366-374\n\
    type #0 t of interface 0: resource at 30-40\n\
    type #1 t of interface 1: alias #0 at 53-60\n\
    type #2 t of interface 2: alias #1 at 129-146\n\
    type #3: own #2\n\
    type #4 t of interface 3: alias #2 at 329-345\n\
    type #5: own #4\n";

/// A graph of the first package.
fn first(rt: &impl Abort, alloc: Global) -> Graph {
    let resolve = pushed(rt, alloc, FIRST);
    resolve.graph().try_clone().expect(rt, "memory")
}

/// Asserts that a graph is valid.
fn assert_valid(rt: &impl Abort, alloc: Global, graph: &Graph)
    ensures { IsValid graph.now }
{
    assert!(rt; is_valid(alloc, graph).expect(rt, "memory"));
}

/// Adds the package that these lines write, its spans moved so far, and writes its id or how it is refused.
fn add(
    rt: &impl Abort,
    alloc: Global,
    graph: &mut Graph,
    caches: &mut GraphCaches,
    text: &str,
    offset: u32,
) -> String
    requires valid { IsValid graph.old }
    requires caches { AreCachesOf graph.old caches.old }
    ensures valid { IsValid graph.new }
    ensures caches { AreCachesOf graph.new caches.new }
{
    let package = group(rt, alloc, text).main;
    assert!(rt; package.is_shaped(alloc).expect(rt, "memory"));
    let features = Features::new(alloc);
    let added = append_with(alloc, graph, caches, &features, package, offset);
    told_id(rt, alloc, added)
}

fn told_id(rt: &impl Abort, alloc: Global, added: ResolveResult<PackageId>) -> String {
    let mut out = String::new(alloc);
    match added {
        Ok(id) => write!(out, "package {}", id.index()),
        Err(refusal) => write_refusal(&mut out, &refusal),
    }
    .expect(rt, "memory");
    out
}

/// One package after another; the second is refused when the graph and its caches have grown. In the end the graph
/// has the others.
fn one_by_one(rt: &impl Abort, alloc: Global) -> String {
    let mut graph = first(rt, alloc);
    assert_valid(rt, alloc, &graph);
    let mut caches = GraphCaches::of(alloc, &graph).expect(rt, "memory");
    let main = add(rt, alloc, &mut graph, &mut caches, MAIN, 100);
    let refused = add(rt, alloc, &mut graph, &mut caches, REFUSED, 300);
    let last = add(rt, alloc, &mut graph, &mut caches, LAST, 300);
    assert_text(rt, shown(rt, alloc, &graph), GRAPH);
    format!(in alloc; "{main}, {refused}, {last}").expect(rt, "memory")
}

/// Adds the main package, its spans moved by 100, and another, its spans moved by 300, and writes their ids or how one
/// of them is refused.
fn add_two(
    rt: &impl Abort,
    alloc: Global,
    graph: &mut Graph,
    caches: &mut GraphCaches,
    text: &str,
) -> String
    requires valid { IsValid graph.old }
    requires caches { AreCachesOf graph.old caches.old }
    ensures valid { IsValid graph.new }
    ensures caches { AreCachesOf graph.new caches.new }
{
    let (main, other) = (group(rt, alloc, MAIN).main, group(rt, alloc, text).main);
    assert!(rt; main.is_shaped(alloc).expect(rt, "memory"));
    assert!(rt; other.is_shaped(alloc).expect(rt, "memory"));
    let mut packages = Items::new(alloc);
    packages.push((main, 100)).expect(rt, "memory");
    packages.push((other, 300)).expect(rt, "memory");
    let features = Features::new(alloc);
    let added = append_all_with(alloc, graph, caches, &features, packages);
    told_ids(rt, alloc, added)
}

fn told_ids(rt: &impl Abort, alloc: Global, added: ResolveResult<Items<PackageId>>) -> String {
    let mut out = String::new(alloc);
    match added {
        Ok(ids) => write_ids(&mut out, ids.as_slice()),
        Err(refusal) => write_refusal(&mut out, &refusal),
    }
    .expect(rt, "memory");
    out
}

fn write_ids(out: &mut String, ids: &[PackageId]) -> Result<(), AllocError> {
    out.push_str("packages")?;
    for id in ids {
        write!(out, " {}", id.index())?;
    }
    Ok(())
}

/// Two packages at once, of which the second is refused, so that none is added, and then two. In the end the graph has
/// these.
fn two_at_once(rt: &impl Abort, alloc: Global) -> String {
    let mut graph = first(rt, alloc);
    assert_valid(rt, alloc, &graph);
    let mut caches = GraphCaches::of(alloc, &graph).expect(rt, "memory");
    let refused = add_two(rt, alloc, &mut graph, &mut caches, REFUSED);
    let two = add_two(rt, alloc, &mut graph, &mut caches, LAST);
    assert_text(rt, shown(rt, alloc, &graph), GRAPH);
    format!(in alloc; "{refused}, {two}").expect(rt, "memory")
}

#[test]
fn caches_go_with_their_graph(rt: HostRuntime) {
    assert_text(
        &rt,
        one_by_one(&rt, rt.alloc()),
        "package 1, 4 at 411-418 name foo:refused/f, package 2",
    );
    assert_text(
        &rt,
        two_at_once(&rt, rt.alloc()),
        "4 at 411-418 name foo:refused/f, packages 1 2",
    );
}
