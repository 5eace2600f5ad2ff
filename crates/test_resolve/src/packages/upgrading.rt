//! The imports of a world merged by tracks: what the graph then holds, once and again, and by which rule.
use crate::fixtures::assert_text;
use crate::packages::scripts::{push_script, pushed};
use crate::packages::shown::shown;
use std::alloc::Global;
use std::fmt::Write;
use std::process::Abort;
use wit_data::{TrackRule, TryClone, WorldId};
use wit_resolve_graph::Resolve;

/// Merges the imports of the first world.
fn upgrade(rt: &impl Abort, alloc: Global, resolve: &mut Resolve) {
    assert!(rt; !resolve.worlds().is_empty());
    let world = WorldId::from_index(0);
    resolve
        .merge_world_imports_based_on_semver(alloc, world)
        .expect(rt, "a merge");
    assert!(rt; resolve.assert_valid(alloc).expect(rt, "memory"));
}

/// What a graph holds after its imports were merged so often.
fn upgraded(rt: &impl Abort, alloc: Global, script: &str, times: usize) -> String {
    let mut resolve = pushed(rt, alloc, script);
    for _turn in 0..times {
        upgrade(rt, alloc, &mut resolve);
    }
    shown(rt, alloc, resolve.graph())
}

/// The old `x` has another name of its own type, `y` uses that type, and the old `x` is exported too.
const EXPORTED: &str = "package foo:x@0.2.0\n\
    interface x\n\
    type t u32\n\
    type s t\n\
    push\n\
    package foo:x@0.2.1\n\
    interface x\n\
    type t u32\n\
    push\n\
    package foo:main\n\
    interface y\n\
    use foo:x/x@0.2.0 t\n\
    world w\n\
    import foo:x/x@0.2.0\n\
    import foo:x/x@0.2.1\n\
    export foo:x/x@0.2.0\n\
    export y\n\
    push\n";

/// `t` of `y` names that of the newer `x`, `s` of the old `x` still its own.
const UPGRADED: &str = "package 0 foo:x@0.2.0\n\
    \x20 interface x 0\n\
    package 1 foo:x@0.2.1\n\
    \x20 interface x 1\n\
    package 2 foo:main\n\
    \x20 interface y 2\n\
    \x20 world w 0\n\
    named foo:x@0.2.0 0\n\
    named foo:x@0.2.1 1\n\
    named foo:main 2\n\
    interface 0 x of package 0 at 20-31\n\
    \x20 type t 0\n\
    \x20 type s 1\n\
    interface 1 x of package 1 at 73-84\n\
    \x20 type t 2\n\
    interface 2 y of package 2 at 114-125\n\
    \x20 type t 3\n\
    world 0 w of package 2 at 146-153 includes 0\n\
    \x20 import 1: interface 1\n\
    \x20 export 0: interface 0 at 196-216\n\
    \x20 export 2: interface 2 at 217-225\n\
    type #0 t of interface 0: alias u32 at 32-42\n\
    type #1 s of interface 0: alias #0 at 43-51\n\
    type #2 t of interface 1: alias u32 at 85-95\n\
    type #3 t of interface 2: alias #2 at 126-145\n";

#[test]
fn a_second_upgrade_changes_nothing(rt: HostRuntime) {
    for times in 1..3 {
        assert_text(&rt, upgraded(&rt, rt.alloc(), EXPORTED, times), UPGRADED);
    }
}

/// Two versions that are on one track where pre-releases are on that of their release.
const PRERELEASE: &str = "package foo:x@0.2.0\n\
    interface x\n\
    type t u32\n\
    push\n\
    package foo:x@0.2.1-rc.1\n\
    interface x\n\
    type t u32\n\
    push\n\
    package foo:main\n\
    world w\n\
    import foo:x/x@0.2.0\n\
    import foo:x/x@0.2.1-rc.1\n\
    push\n";

/// How many imports the first world has once they are merged by the rule that is set.
fn imports(rt: &impl Abort, alloc: Global, resolve: &Resolve) -> usize {
    let mut copy = resolve.try_clone().expect(rt, "memory");
    upgrade(rt, alloc, &mut copy);
    copy.worlds().first().map_or(0, |world| world.imports.len())
}

/// Writes the rule that is set, and how many imports it leaves.
fn write_rule(rt: &impl Abort, alloc: Global, out: &mut String, resolve: &Resolve) {
    let word = match resolve.track_rule() {
        TrackRule::Published => "published",
        TrackRule::WithPrereleases => "with pre-releases",
    };
    let count = imports(rt, alloc, resolve);
    write!(out, "{word} {count};").expect(rt, "memory");
}

/// The rule of a new `Resolve`, that which is set, and that of a copy.
fn rules_set(rt: &impl Abort, alloc: Global) -> String {
    let mut out = String::new(alloc);
    let mut resolve = pushed(rt, alloc, PRERELEASE);
    write_rule(rt, alloc, &mut out, &resolve);
    resolve.set_track_rule(TrackRule::WithPrereleases);
    write_rule(rt, alloc, &mut out, &resolve);
    let copy = resolve.try_clone().expect(rt, "memory");
    resolve.set_track_rule(TrackRule::Published);
    write_rule(rt, alloc, &mut out, &copy);
    write_rule(rt, alloc, &mut out, &resolve);
    out
}

/// The rule after another graph went in that has the other rule, and after another one was refused.
fn rule_kept(rt: &impl Abort, alloc: Global, rule: TrackRule, other_rule: TrackRule) -> String {
    let mut out = String::new(alloc);
    let mut resolve = pushed(rt, alloc, PRERELEASE);
    resolve.set_track_rule(rule);
    for script in ["package foo:y\npush\n", "package foo:main\nworld w\npush\n"] {
        let mut other = pushed(rt, alloc, script);
        other.set_track_rule(other_rule);
        match resolve.merge(alloc, other) {
            Ok(_) => out.push_str("merged ").expect(rt, "memory"),
            Err(_) => out.push_str("refused ").expect(rt, "memory"),
        }
        write_rule(rt, alloc, &mut out, &resolve);
    }
    out
}

/// The rule after a package was refused.
fn rule_after_a_push(rt: &impl Abort, alloc: Global) -> String {
    let mut out = String::new(alloc);
    let mut resolve = pushed(rt, alloc, PRERELEASE);
    resolve.set_track_rule(TrackRule::WithPrereleases);
    let Err(refusal) = push_script(rt, alloc, &mut resolve, "package foo:main\n") else {
        panic!(rt; "a package");
    };
    let number = refusal.number();
    write!(out, "{number} ").expect(rt, "memory");
    write_rule(rt, alloc, &mut out, &resolve);
    out
}

#[test]
fn the_rule_of_tracks_is_set_copied_and_kept(rt: HostRuntime) {
    assert_text(
        &rt,
        rules_set(&rt, rt.alloc()),
        "published 2;with pre-releases 1;with pre-releases 1;published 2;",
    );
    assert_text(
        &rt,
        rule_kept(
            &rt,
            rt.alloc(),
            TrackRule::Published,
            TrackRule::WithPrereleases,
        ),
        "merged published 2;refused published 2;",
    );
    assert_text(
        &rt,
        rule_kept(
            &rt,
            rt.alloc(),
            TrackRule::WithPrereleases,
            TrackRule::Published,
        ),
        "merged with pre-releases 1;refused with pre-releases 1;",
    );
    assert_text(
        &rt,
        rule_after_a_push(&rt, rt.alloc()),
        "5 with pre-releases 1;",
    );
}
