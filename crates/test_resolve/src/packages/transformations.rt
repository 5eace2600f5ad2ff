//! Refused transformations of worlds: what each says, and that the graph is as before in all its data.

use crate::fixtures::{assert_text, string, type_at};
use crate::packages::parts::{
    entries, function, function_entry, interface, interface_entry, interface_list, named, of_world,
    package, push, type_entry, type_list, world, world_list,
};
use crate::packages::scripts::pushed;
use crate::packages::shown::shown;
use std::alloc::Global;
use std::process::Abort;
use wit_data::{
    FunctionKind, Items, Span, Type_, TypeDef, TypeDefKind, World, WorldId, WorldItem, WorldKey,
};
use wit_graph_data::ResolveResult;
use wit_resolve_graph::Resolve;

/// Types of interfaces `a`, `b`, which uses `a`, and `c`, which uses both, and type `k` of world `w`.
fn types(rt: &impl Abort, alloc: Global) -> Items<TypeDef> {
    type_list(
        rt,
        alloc,
        [
            named(rt, alloc, 0, "t", TypeDefKind::Type_(Type_::U32)),
            named(rt, alloc, 1, "t", TypeDefKind::Type_(type_at(0))),
            named(rt, alloc, 2, "t", TypeDefKind::Type_(type_at(0))),
            named(rt, alloc, 2, "u", TypeDefKind::Type_(type_at(1))),
            of_world(rt, alloc, 0, "k", TypeDefKind::Type_(Type_::U8)),
        ],
    )
}

/// World `w`, which imports `c` and type `k` and exports a function `k`, and world `v`, which has nothing.
fn worlds(rt: &impl Abort, alloc: Global) -> Items<World> {
    let k = function(rt, alloc, "k", FunctionKind::Freestanding);
    let mut w = world(rt, alloc, "w");
    w.imports = entries(
        rt,
        alloc,
        [
            interface_entry(2),
            type_entry(rt, alloc, "k", 4, Span::new(7, 8)),
        ],
    );
    w.exports = entries(rt, alloc, [function_entry(rt, alloc, k)]);
    world_list(rt, alloc, [w, world(rt, alloc, "v")])
}

/// Package `foo:bar`, which has all that.
fn resolve(rt: &impl Abort, alloc: Global) -> Resolve {
    let mut made = package(rt, alloc, "bar", "");
    made.types = types(rt, alloc);
    made.interfaces = interface_list(
        rt,
        alloc,
        [
            interface(rt, alloc, "a", &[("t", 0)]),
            interface(rt, alloc, "b", &[("t", 1)]),
            interface(rt, alloc, "c", &[("t", 2), ("u", 3)]),
        ],
    );
    made.worlds = worlds(rt, alloc);
    let mut resolve = Resolve::new(alloc);
    push(rt, alloc, &mut resolve, &made, 0);
    resolve
}

/// A turn: the exports become imports, or the imports of these digits become exports.
#[derive(Clone, Copy)]
enum WorldLists {
    Importize,
    Exportize(&'static [usize]),
}

/// The id of the interface that a key names, and one; 0 for a label.
fn digit(key: &WorldKey) -> usize {
    match key {
        WorldKey::Interface(id) => id.index().wrapping_add(1),
        WorldKey::Name(_) => 0,
    }
}

/// What a transformation of a world answers.
fn answer_to(
    rt: &impl Abort,
    alloc: Global,
    resolve: &mut Resolve,
    place: usize,
    turn: WorldLists,
    out: &str,
) -> ResolveResult<()> {
    assert!(rt; place < resolve.worlds().len());
    let world = WorldId::from_index(place);
    let out = Some(string(rt, alloc, out));
    match turn {
        WorldLists::Importize => resolve.importize(alloc, world, out),
        WorldLists::Exportize(moved) => {
            let filter = |key: &WorldKey, _item: &WorldItem| moved.contains(&digit(key));
            resolve.exportize(alloc, world, out, Some(filter))
        }
    }
}

/// What a turn says, and whether the whole graph is as before.
fn said(rt: &impl Abort, alloc: Global, place: usize, asked: WorldLists, out: &str) -> String {
    let mut resolve = resolve(rt, alloc);
    let before = shown(rt, alloc, resolve.graph());
    let text = match answer_to(rt, alloc, &mut resolve, place, asked, out) {
        Ok(()) => string(rt, alloc, "done"),
        Err(refusal) => {
            let number = refusal.number();
            format!(in alloc; "{number} {refusal}").expect(rt, "memory")
        }
    };
    let after = shown(rt, alloc, resolve.graph());
    let kept = if before == after {
        "graph as before"
    } else {
        "another graph"
    };
    format!(in alloc; "{text}, {kept}").expect(rt, "memory")
}

/// The ids of the worlds.
const W: usize = 0;

const V: usize = 1;

const TRANSFORMATIONS: [(usize, WorldLists, &str, &str); 7] = [
    (
        W,
        WorldLists::Importize,
        "x",
        "19 world export `k` conflicts with import of same name, graph as before",
    ),
    (
        V,
        WorldLists::Importize,
        "w",
        "20 world `w` is already defined in package `foo:bar`, graph as before",
    ),
    (
        W,
        WorldLists::Exportize(&[1, 3]),
        "v",
        "20 world `v` is already defined in package `foo:bar`, graph as before",
    ),
    (
        W,
        WorldLists::Exportize(&[0, 1, 3]),
        "x",
        "21 type import `k` cannot be exported, graph as before",
    ),
    (
        W,
        WorldLists::Exportize(&[0]),
        "x",
        "21 type import `k` cannot be exported, graph as before",
    ),
    (
        W,
        WorldLists::Exportize(&[1, 3]),
        "x",
        "4 interface `foo:bar/c` transitively depends on an interface in incompatible ways, graph as before",
    ),
    (W, WorldLists::Exportize(&[3]), "x", "done, another graph"),
];

#[test]
fn refused_turns_change_nothing(rt: HostRuntime) {
    for &(place, asked, out, wanted) in &TRANSFORMATIONS {
        assert_text(&rt, said(&rt, rt.alloc(), place, asked, out), wanted);
    }
}

/// Two worlds, of which the first has an import and an export.
const TWO_WORLDS: &str = "package foo:bar\n\
    interface a\n\
    interface b\n\
    world w\n\
    import a\n\
    export b\n\
    world v\n\
    push\n";

/// What the graph holds after the first world was transformed and has this name.
fn renamed(rt: &impl Abort, alloc: Global, asked: WorldLists, out: &str) -> String {
    let mut resolve = pushed(rt, alloc, TWO_WORLDS);
    answer_to(rt, alloc, &mut resolve, W, asked, out).expect(rt, "a turn");
    assert!(rt; resolve.assert_valid(alloc).expect(rt, "memory"));
    shown(rt, alloc, resolve.graph())
}

/// The empty text is a name. The name stands last in its table, also where it is the one that was there.
const RENAMED: [(WorldLists, &str, &str); 3] = [
    (
        WorldLists::Importize,
        "",
        "package 0 foo:bar\n\
        \x20 interface a 0\n\
        \x20 interface b 1\n\
        \x20 world v 1\n\
        \x20 world  0\n\
        named foo:bar 0\n\
        interface 0 a of package 0 at 16-27\n\
        interface 1 b of package 0 at 28-39\n\
        world 0  of package 0 at 40-47 includes 0\n\
        \x20 import 1: interface 1\n\
        world 1 v of package 0 at 66-73 includes 0\n",
    ),
    (
        WorldLists::Exportize(&[1]),
        "",
        "package 0 foo:bar\n\
        \x20 interface a 0\n\
        \x20 interface b 1\n\
        \x20 world v 1\n\
        \x20 world  0\n\
        named foo:bar 0\n\
        interface 0 a of package 0 at 16-27\n\
        interface 1 b of package 0 at 28-39\n\
        world 0  of package 0 at 40-47 includes 0\n\
        \x20 export 0: interface 0\n\
        world 1 v of package 0 at 66-73 includes 0\n",
    ),
    (
        WorldLists::Exportize(&[]),
        "w",
        "package 0 foo:bar\n\
        \x20 interface a 0\n\
        \x20 interface b 1\n\
        \x20 world v 1\n\
        \x20 world w 0\n\
        named foo:bar 0\n\
        interface 0 a of package 0 at 16-27\n\
        interface 1 b of package 0 at 28-39\n\
        world 0 w of package 0 at 40-47 includes 0\n\
        \x20 import 0: interface 0\n\
        world 1 v of package 0 at 66-73 includes 0\n",
    ),
];

#[test]
fn worlds_take_any_name_that_is_free(rt: HostRuntime) {
    for &(asked, out, wanted) in &RENAMED {
        assert_text(&rt, renamed(&rt, rt.alloc(), asked, out), wanted);
    }
}
