//! Refused pushes as they are rendered at the lines of a script: the file has the name of its package, its lines are
//! counted from the first of the package, and a line begins with its first token. All else that is told of refused
//! pushes is compared in `packages`.
use crate::fixtures::assert_text;
use std::alloc::Global;
use std::process::Abort;
use wit_resolve_graph::{Resolve, SourceFault};
use wit_script::{Change, Request, read_script};

/// How the push of a script is refused, after the number of the refusal.
fn rendered_text(rt: &impl Abort, alloc: Global, script: &str) -> String {
    let mut commands = read_script(alloc, script).expect(rt, "a script");
    let ready = commands.pop().expect(rt, "a command");
    let Request::Change(Change::PushGroups { main, deps }) = ready.into_request() else {
        panic!(rt; "no push");
    };
    let mut resolve = Resolve::new(alloc);
    let Err(refusal) = resolve.push_groups(alloc, main, deps) else {
        panic!(rt; "a package");
    };
    let number = refusal.number();
    let fault = SourceFault::Resolve(refusal);
    let text = resolve.render_error(alloc, &fault).expect(rt, "memory");
    format!(in alloc; "{number} {text}").expect(rt, "memory")
}

const REFUSALS: [(&str, &str); 3] = [
    (
        "package p:q@1.0.0\n\
        interface i @since=1.1.0\n\
        push\n",
        "10 feature gate cannot reference unreleased version 1.1.0 of package [p:q@1.0.0] (current version 1.0.0)\n\
        \x20    --> p:q@1.0.0:2:1\n\
        \x20     |\n\
        \x20   2 | interface i @since=1.1.0\n\
        \x20     | ^-----------------------",
    ),
    (
        "package p:q\n\
        interface i @unstable=f\n\
        world w\n\
        import i\n\
        push\n",
        "11 found a reference to a interface which is excluded due to its feature not being activated\n\
        \x20    --> p:q:4:1\n\
        \x20     |\n\
        \x20   4 | import i\n\
        \x20     | ^-------",
    ),
    (
        "package p:q\n\
        interface i @unstable=f\n\
        \x20 type t u32\n\
        push\n",
        "12 found a reference to a interface which is excluded due to its feature not being activated; this type is not gated by a feature but its interface is\n\
        \x20    --> p:q:3:3\n\
        \x20     |\n\
        \x20   3 |   type t u32\n\
        \x20     |   ^---------",
    ),
];

#[test]
fn refusals_are_told_at_their_lines(rt: HostRuntime) {
    for &(script, told) in &REFUSALS {
        assert_text(&rt, rendered_text(&rt, rt.alloc(), script), told);
    }
}
