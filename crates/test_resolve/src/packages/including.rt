//! Worlds that include another: of another package, what was stable there is unknown here; types that the included world
//! owns are copied, under their names or other ones.
use crate::fixtures::assert_text;
use crate::packages::scripts::pushed;
use crate::packages::shown::shown;
use std::alloc::Global;
use std::process::Abort;

const SCRIPT: &str = "package foo:base@1.0.0\n\
    interface a\n\
    world b\n\
    import a @since=1.0.0\n\
    world c\n\
    include b\n\
    push\n\
    package foo:main@1.0.0\n\
    world d\n\
    include foo:base/b@1.0.0\n\
    world e\n\
    import foo:base/a@1.0.0 @since=1.0.0\n\
    include foo:base/b@1.0.0\n\
    push\n";

/// The graph with the packages of a script.
fn included(rt: &impl Abort, alloc: Global, script: &str) -> String {
    let resolve = pushed(rt, alloc, script);
    shown(rt, alloc, resolve.graph())
}

/// World `c` is of the same package, `d` has nothing of its own, `e` has the entry already.
const INCLUDED: &str = "package 0 foo:base@1.0.0\n\
    \x20 interface a 0\n\
    \x20 world b 0\n\
    \x20 world c 1\n\
    package 1 foo:main@1.0.0\n\
    \x20 world d 2\n\
    \x20 world e 3\n\
    named foo:base@1.0.0 0\n\
    named foo:main@1.0.0 1\n\
    interface 0 a of package 0 at 23-34\n\
    world 0 b of package 0 at 35-42 includes 0\n\
    \x20 import 0: interface 0 since 1.0.0\n\
    world 1 c of package 0 at 65-72 includes 0\n\
    \x20 import 0: interface 0 since 1.0.0\n\
    world 2 d of package 1 at 107-114 includes 0\n\
    \x20 import 0: interface 0\n\
    world 3 e of package 1 at 140-147 includes 0\n\
    \x20 import 0: interface 0\n";

#[test]
fn what_is_stable_elsewhere_is_unknown_where_it_is_included(rt: HostRuntime) {
    assert_text(&rt, included(&rt, rt.alloc(), SCRIPT), INCLUDED);
}

const COPIED_SCRIPT: &str = "package foo:bar\n\
    world base\n\
    type t u32\n\
    import-func f(x:t)\n\
    world derived\n\
    include base t=t2\n\
    world other\n\
    include base\n\
    push\n";

/// Worlds `base` and `other` each have a type `t` of their own, `derived` has a `t2`. Spans are those of the lines that
/// the copies are of.
const COPIED: &str = "package 0 foo:bar\n\
    \x20 world base 0\n\
    \x20 world derived 1\n\
    \x20 world other 2\n\
    named foo:bar 0\n\
    world 0 base of package 0 at 16-26 includes 0\n\
    \x20 import t: type #0 at 27-37\n\
    \x20 import f: func f(x: #0 at 38-56;) at 38-56\n\
    world 1 derived of package 0 at 57-70 includes 0\n\
    \x20 import t2: type #1 at 27-37\n\
    \x20 import f: func f(x: #1 at 38-56;) at 38-56\n\
    world 2 other of package 0 at 89-100 includes 0\n\
    \x20 import t: type #2 at 27-37\n\
    \x20 import f: func f(x: #2 at 38-56;) at 38-56\n\
    type #0 t of world 0: alias u32 at 27-37\n\
    type #1 t2 of world 1: alias u32 at 27-37\n\
    type #2 t of world 2: alias u32 at 27-37\n";

#[test]
fn types_of_one_name_are_those_of_their_worlds(rt: HostRuntime) {
    assert_text(&rt, included(&rt, rt.alloc(), COPIED_SCRIPT), COPIED);
}
