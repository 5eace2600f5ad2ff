//! Worlds with exports that are elaborated a second time.
use crate::fixtures::assert_text;
use crate::packages::scripts::push_script;
use crate::packages::shown::shown;
use std::alloc::Global;
use std::process::Abort;
use wit_data::{TryClone, WorldId};
use wit_elaboration::{elaborate, is_elaborable};
use wit_resolve_graph::Resolve;

/// Interface `a`, `b` that uses it, `c` that uses both, and a world.
const INTERFACES: &str = "package foo:bar\n\
    interface a\n\
    type t u32\n\
    interface b\n\
    use a t\n\
    interface c\n\
    use a t\n\
    use b t t2\n\
    world w\n";

/// How much the world imports and exports that lists this; it ends the test where elaborating it again changes anything
/// of the graph.
fn elaborated_again(rt: &impl Abort, alloc: Global, listed: &str) -> String {
    let mut resolve = Resolve::new(alloc);
    resolve.add_feature(alloc, "f").expect(rt, "memory");
    let script = format!(in alloc; "{INTERFACES}{listed}").expect(rt, "memory");
    push_script(rt, alloc, &mut resolve, script.as_str()).expect(rt, "a package");
    let before = shown(rt, alloc, resolve.graph());
    let mut graph = resolve.graph().try_clone().expect(rt, "memory");
    let w = WorldId::from_index(0);
    assert!(rt; is_elaborable(alloc, &graph, w).expect(rt, "memory"));
    elaborate(alloc, &mut graph, w).expect(rt, "no conflict");
    assert_text(rt, shown(rt, alloc, &graph), before.as_str());
    let world = graph.worlds.get(0).expect(rt, "a world");
    let (imports, exports) = (world.imports.len(), world.exports.len());
    format!(in alloc; "{imports} {exports}").expect(rt, "memory")
}

#[test]
fn worlds_stay_that_are_elaborated_again(rt: HostRuntime) {
    for (listed, wanted) in [
        ("export a\nexport b\nexport c\n", "0 3"),
        ("export c\n", "2 1"),
        ("import c\nexport a\n", "3 1"),
        ("import c\n", "3 0"),
        ("export c\nexport lab=a\n", "2 2"),
        ("export lab=a\nexport c\n", "2 2"),
        ("", "0 0"),
        ("export c @unstable=f\n", "2 1"),
    ] {
        assert_text(&rt, elaborated_again(&rt, rt.alloc(), listed), wanted);
    }
}
