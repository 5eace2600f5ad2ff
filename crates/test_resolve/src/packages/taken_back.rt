//! Pushes that are refused late: what came before is taken back, and the files stay.
use crate::fixtures::assert_text;
use crate::packages::scripts::{group, push_script, pushed};
use crate::packages::shown::shown;
use crate::packages::told::told;
use std::alloc::Global;
use std::fmt::Write;
use std::process::Abort;
use wit_data::{Items, PackageId};
use wit_graph_data::ResolveResult;
use wit_resolve_graph::{Resolve, Shape};

/// A package that is there, with a world.
const FIRST: &str = "package foo:bar\n\
    interface a\n\
    type t u32\n\
    world v\n\
    import a\n\
    push\n";

/// What a push answered, and the id of the package that is added next, of how many, with how many worlds.
fn refused_late(
    rt: &impl Abort,
    alloc: Global,
    before: &str,
    resolve: &mut Resolve,
    answer: ResolveResult<PackageId>,
) -> String {
    let mut out = told(rt, alloc, before, resolve, answer);
    let next = push_script(rt, alloc, resolve, "package foo:next\nworld u\n");
    let place = next.expect(rt, "a package").index();
    let (packages, worlds) = (resolve.packages().len(), resolve.worlds().len());
    write!(out, "\nnext {place} of {packages}, worlds {worlds}").expect(rt, "memory");
    out
}

const A: &str = "package aa:a\n\
    interface i\n\
    type t u32\n";

const B: &str = "package aa:b\n\
    interface i\n\
    use aa:a/i t\n";

/// A package that names a type which isn't there.
const C: &str = "package aa:c\n\
    interface i\n\
    use aa:b/i nope\n";

/// How the push of the three is refused after the first package.
fn third_refused(rt: &impl Abort, alloc: Global) -> String {
    let mut resolve = pushed(rt, alloc, FIRST);
    let before = shown(rt, alloc, resolve.graph());
    let main = group(rt, alloc, A);
    let second = group(rt, alloc, B);
    let third = group(rt, alloc, C);
    assert!(rt; main.is_shaped(alloc).expect(rt, "memory"));
    assert!(rt; second.is_shaped(alloc).expect(rt, "memory"));
    assert!(rt; third.is_shaped(alloc).expect(rt, "memory"));
    let mut deps = Items::new(alloc);
    deps.push(second).expect(rt, "memory");
    deps.push(third).expect(rt, "memory");
    let answer = resolve.push_groups(alloc, main, deps);
    refused_late(rt, alloc, before.as_str(), &mut resolve, answer)
}

/// Two worlds, of which the second exports what it would need from outside.
const TWO_WORLDS: &str = "package foo:baz\n\
    interface a\n\
    type t u32\n\
    interface b\n\
    use a t\n\
    interface c\n\
    use a t\n\
    use b t t2\n\
    world v\n\
    import c\n\
    world w\n\
    export a\n\
    export c\n";

/// How the push of the two worlds is refused after the first package.
fn second_world_refused(rt: &impl Abort, alloc: Global) -> String {
    let mut resolve = pushed(rt, alloc, FIRST);
    let before = shown(rt, alloc, resolve.graph());
    let answer = push_script(rt, alloc, &mut resolve, TWO_WORLDS);
    refused_late(rt, alloc, before.as_str(), &mut resolve, answer)
}

#[test]
fn what_came_before_a_refusal_is_taken_back(rt: HostRuntime) {
    assert_text(
        &rt,
        third_refused(&rt, rt.alloc()),
        "13 at 158-173 message type `nope` not defined in interface\n\
        type `nope` not defined in interface\n\
        \x20    --> aa:c:3:1\n\
        \x20     |\n\
        \x20   3 | use aa:b/i nope\n\
        \x20     | ^--------------\n\
        graph as before, files foo:bar aa:a aa:b aa:c to 175\n\
        next 1 of 2, worlds 2",
    );
    assert_text(
        &rt,
        second_world_refused(&rt, rt.alloc()),
        "4 at 164-171 name foo:baz/c\n\
        interface `foo:baz/c` transitively depends on an interface in incompatible ways\n\
        \x20    --> foo:baz:11:1\n\
        \x20     |\n\
        \x20  11 | world w\n\
        \x20     | ^------\n\
        graph as before, files foo:bar foo:baz to 191\n\
        next 1 of 2, worlds 2",
    );
}
