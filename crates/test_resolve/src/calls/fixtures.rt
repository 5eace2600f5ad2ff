//! What several tests need.
use std::alloc::Global;
use std::process::Abort;
use wit_resolve_graph::{Resolve, Shape};
use wit_script::{Change, Request, read_script};

/// A `Resolve` with the packages of a script, each pushed by itself.
pub fn resolve_of(rt: &impl Abort, alloc: Global, script: &str) -> Resolve {
    let mut resolve = Resolve::new(alloc);
    let commands = read_script(alloc, script).expect(rt, "a script");
    for ready in commands.into_vec() {
        push(rt, alloc, &mut resolve, ready.into_request());
    }
    assert_valid(rt, alloc, &resolve);
    resolve
}

/// Ends the test where the graph isn't valid, which its type rules out.
pub fn assert_valid(rt: &impl Abort, alloc: Global, resolve: &Resolve) {
    assert!(rt; resolve.assert_valid(alloc).expect(rt, "memory"));
}

/// Pushes a package that is alone in its group.
fn push(rt: &impl Abort, alloc: Global, resolve: &mut Resolve, request: Request) {
    let Request::Change(Change::PushGroups { main, deps }) = request else {
        panic!(rt; "no push");
    };
    drop(deps);
    let package = main.main;
    assert!(rt; package.is_shaped(alloc).expect(rt, "memory"));
    let _id = resolve.push(alloc, package, 0).expect(rt, "memory");
}
