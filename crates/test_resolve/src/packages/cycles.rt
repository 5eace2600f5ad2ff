//! Refused merges of two graphs, and of the imports of a world, where something would depend on itself or doesn't
//! agree: what is told, and that all but the files is as before. Of those on a cycle any may be named; here stands the
//! one that is.
use crate::fixtures::{assert_text, string};
use crate::packages::scripts::pushed;
use crate::packages::shown::shown;
use crate::packages::told::told;
use std::alloc::Global;
use std::process::Abort;
use wit_data::WorldId;

/// How a graph refuses another one.
fn refused_merge(rt: &impl Abort, alloc: Global, script: &str, other: &str) -> String {
    let mut resolve = pushed(rt, alloc, script);
    let other = pushed(rt, alloc, other);
    let before = shown(rt, alloc, resolve.graph());
    match resolve.merge(alloc, other) {
        Ok(_) => string(rt, alloc, "merged"),
        Err(refusal) => told(rt, alloc, before.as_str(), &resolve, Err(refusal)),
    }
}

/// Two graphs, and how the first refuses the second.
const MERGES: [(&str, &str, &str); 4] = [
    // Interfaces that would use each other.
    (
        "package foo:bar\n\
        interface y\n\
        type u u32\n\
        interface x\n\
        use y u\n\
        push\n",
        "package foo:bar\n\
        interface x\n\
        type v u32\n\
        interface y\n\
        use x v\n\
        push\n",
        "22 at 0-0 message interface `foo:bar/x` would depend on itself\n\
        interface `foo:bar/x` would depend on itself\n\
        graph as before, files foo:bar foo:bar to 120",
    ),
    // Packages that would use each other.
    (
        "package foo:a\n\
        interface i\n\
        type t u32\n\
        push\n\
        package foo:b\n\
        interface j\n\
        use foo:a/i t\n\
        push\n",
        "package foo:b\n\
        interface k\n\
        type v u32\n\
        push\n\
        package foo:a\n\
        interface h\n\
        use foo:b/k v\n\
        push\n",
        "6 at 0-0 package foo:b\n\
        package `foo:b` creates a dependency cycle\n\
        graph as before, files foo:a foo:b foo:b foo:a to 158",
    ),
    // A function whose parameter has another name.
    (
        "package foo:bar\n\
        interface i\n\
        func f(x:u32)\n\
        push\n",
        "package foo:bar\n\
        interface i\n\
        func f(y:u32)\n\
        push\n",
        "24 at 0-0 message failed to merge package `foo:bar` into existing copy: failed to merge interface `i`: mismatch in function `f`: different function parameter names: y != x\n\
        failed to merge package `foo:bar` into existing copy: failed to merge interface `i`: mismatch in function `f`: different function parameter names: y != x\n\
        graph as before, files foo:bar foo:bar to 86",
    ),
    // A world that imports less.
    (
        "package foo:bar\n\
        interface a\n\
        world w\n\
        import a\n\
        push\n",
        "package foo:bar\n\
        interface a\n\
        world w\n\
        push\n",
        "24 at 0-0 message failed to merge package `foo:bar` into existing copy: failed to merge world `w`: world contains different number of imports than expected\n\
        failed to merge package `foo:bar` into existing copy: failed to merge world `w`: world contains different number of imports than expected\n\
        graph as before, files foo:bar foo:bar to 83",
    ),
];

#[test]
fn refused_merges_change_only_the_files(rt: HostRuntime) {
    for &(script, other, wanted) in &MERGES {
        assert_text(&rt, refused_merge(&rt, rt.alloc(), script, other), wanted);
    }
}

/// How the first world refuses to have its imports merged.
fn refused_upgrade(rt: &impl Abort, alloc: Global, script: &str) -> String {
    let mut resolve = pushed(rt, alloc, script);
    let before = shown(rt, alloc, resolve.graph());
    assert!(rt; !resolve.worlds().is_empty());
    let world = WorldId::from_index(0);
    match resolve.merge_world_imports_based_on_semver(alloc, world) {
        Ok(()) => string(rt, alloc, "merged"),
        Err(refusal) => told(rt, alloc, before.as_str(), &resolve, Err(refusal)),
    }
}

/// A graph, and how its first world refuses.
const UPGRADES: [(&str, &str); 5] = [
    // A type that would be another name of itself.
    (
        "package foo:x@0.2.0\n\
        interface x\n\
        type t u32\n\
        push\n\
        package foo:x@0.2.1\n\
        interface x\n\
        use foo:x/x@0.2.0 t\n\
        push\n\
        package foo:main\n\
        world w\n\
        import foo:x/x@0.2.0\n\
        import foo:x/x@0.2.1\n\
        push\n",
        "23 at 0-0 message type `t` would refer to itself\n\
        type `t` would refer to itself\n\
        graph as before, files foo:x@0.2.0 foo:x@0.2.1 foo:main to 165",
    ),
    // A type that the newer interface doesn't have.
    (
        "package foo:x@0.2.0\n\
        interface x\n\
        type t u32\n\
        push\n\
        package foo:x@0.2.1\n\
        interface x\n\
        push\n\
        package foo:main\n\
        interface y\n\
        use foo:x/x@0.2.0 t\n\
        world w\n\
        import y\n\
        import foo:x/x@0.2.1\n\
        push\n",
        "25 at 0-0 message failed to upgrade `foo:x/x@0.2.0` to `foo:x/x@0.2.1`, was this semver-compatible update not semver compatible?: type `t` is missing\n\
        failed to upgrade `foo:x/x@0.2.0` to `foo:x/x@0.2.1`, was this semver-compatible update not semver compatible?: type `t` is missing\n\
        graph as before, files foo:x@0.2.0 foo:x@0.2.1 foo:main to 165",
    ),
    // Interfaces that would use each other.
    (
        "package a:x@1.0.0\n\
        interface i\n\
        type t u32\n\
        push\n\
        package a:x@1.1.0\n\
        interface j\n\
        use a:x/i@1.0.0 t\n\
        type u u32\n\
        interface i\n\
        use j u\n\
        type t u32\n\
        world w\n\
        import a:x/i@1.0.0\n\
        import j\n\
        import i\n\
        push\n",
        "22 at 0-0 message interface `a:x/i@1.1.0` would depend on itself\n\
        interface `a:x/i@1.1.0` would depend on itself\n\
        graph as before, files a:x@1.0.0 a:x@1.1.0 to 178",
    ),
    // Packages that would use each other.
    (
        "package a:x@1.0.0\n\
        interface i\n\
        type t u32\n\
        push\n\
        package b:y\n\
        interface j\n\
        use a:x/i@1.0.0 t\n\
        type u u32\n\
        push\n\
        package a:x@1.1.0\n\
        interface i\n\
        type t u32\n\
        interface k\n\
        use b:y/j u\n\
        world w\n\
        import a:x/i@1.0.0\n\
        import b:y/j\n\
        import i\n\
        push\n",
        "6 at 0-0 package a:x@1.1.0\n\
        package `a:x@1.1.0` creates a dependency cycle\n\
        graph as before, files a:x@1.0.0 b:y a:x@1.1.0 to 211",
    ),
    // Exports of which one would need the other from outside.
    (
        "package a:x@1.0.0\n\
        interface i\n\
        type t u32\n\
        push\n\
        package a:x@1.1.0\n\
        interface i\n\
        type t u32\n\
        interface j\n\
        use a:x/i@1.0.0 t\n\
        interface k\n\
        use j t\n\
        world w\n\
        import a:x/i@1.0.0\n\
        import i\n\
        import j\n\
        export i\n\
        export k\n\
        push\n",
        "4 at 133-140 name a:x/k@1.1.0\n\
        interface `a:x/k@1.1.0` transitively depends on an interface in incompatible ways\n\
        \x20    --> a:x@1.1.0:8:1\n\
        \x20     |\n\
        \x20   8 | world w\n\
        \x20     | ^------\n\
        graph as before, files a:x@1.0.0 a:x@1.1.0 to 197",
    ),
];

#[test]
fn refused_upgrades_change_nothing(rt: HostRuntime) {
    for &(script, wanted) in &UPGRADES {
        assert_text(&rt, refused_upgrade(&rt, rt.alloc(), script), wanted);
    }
}
