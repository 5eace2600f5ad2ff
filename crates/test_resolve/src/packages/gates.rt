//! Deprecations are never asked: what is active is what the version and the features say, and ids close up.
use crate::fixtures::assert_text;
use crate::packages::parts::{
    entries, function, function_entry, functions, interface, interface_entry, interface_list,
    named, of_world, package, push, shown_copy, since, type_entry, type_list, unstable, world,
    world_list,
};
use std::alloc::Global;
use std::process::Abort;
use wit_data::{
    Function, FunctionKind, Interface, Items, Span, Stability, Type_, TypeDef, TypeDefKind,
    UnresolvedPackage, World,
};
use wit_resolve_graph::Resolve;

/// What is active, deprecated long since.
fn kept(rt: &impl Abort, alloc: Global) -> Stability {
    since(rt, alloc, "1.0.0", "0.1.0")
}

/// What asks for a feature, deprecated by a version to come.
fn asking(rt: &impl Abort, alloc: Global) -> Stability {
    unstable(rt, alloc, "f", "9.0.0")
}

/// Types `gone` and `t` of interface `i`, `g` of interface `h`, and `k` and `l` of world `w`; `t` and `l` are active.
fn types(rt: &impl Abort, alloc: Global) -> Items<TypeDef> {
    let mut gone = named(rt, alloc, 0, "gone", TypeDefKind::Type_(Type_::U8));
    gone.stability = asking(rt, alloc);
    let mut t = named(rt, alloc, 0, "t", TypeDefKind::Type_(Type_::U16));
    t.stability = kept(rt, alloc);
    let mut g = named(rt, alloc, 1, "g", TypeDefKind::Type_(Type_::U32));
    g.stability = asking(rt, alloc);
    let mut k = of_world(rt, alloc, 1, "k", TypeDefKind::Type_(Type_::U64));
    k.stability = asking(rt, alloc);
    let l = of_world(rt, alloc, 1, "l", TypeDefKind::Type_(Type_::Bool));
    type_list(rt, alloc, [gone, t, g, k, l])
}

fn gated(rt: &impl Abort, alloc: Global, name: &str, stability: Stability) -> Function {
    let mut made = function(rt, alloc, name, FunctionKind::Freestanding);
    made.stability = stability;
    made
}

fn interfaces(rt: &impl Abort, alloc: Global) -> Items<Interface> {
    let mut h = interface(rt, alloc, "h", &[("g", 2)]);
    h.stability = asking(rt, alloc);
    interface_list(
        rt,
        alloc,
        [
            first_interface(rt, alloc),
            h,
            interface(rt, alloc, "j", &[]),
        ],
    )
}

/// Interface `i`, with a function that isn't active and one that is.
fn first_interface(rt: &impl Abort, alloc: Global) -> Interface {
    let left = gated(rt, alloc, "left", asking(rt, alloc));
    let stays = gated(rt, alloc, "stays", kept(rt, alloc));
    let mut i = interface(rt, alloc, "i", &[("gone", 0), ("t", 1)]);
    i.functions = functions(rt, alloc, [left, stays]);
    i.stability = kept(rt, alloc);
    i
}

/// World `lost`, and world `w` with a type and a function that are active.
fn worlds(rt: &impl Abort, alloc: Global) -> Items<World> {
    let mut lost = world(rt, alloc, "lost");
    lost.stability = asking(rt, alloc);
    let mut w = world(rt, alloc, "w");
    w.imports = entries(
        rt,
        alloc,
        [
            type_entry(rt, alloc, "k", 3, Span::unknown()),
            type_entry(rt, alloc, "l", 4, Span::unknown()),
            interface_entry(2),
        ],
    );
    let left = gated(rt, alloc, "left", asking(rt, alloc));
    let stays = gated(rt, alloc, "stays", kept(rt, alloc));
    w.exports = entries(
        rt,
        alloc,
        [
            function_entry(rt, alloc, left),
            function_entry(rt, alloc, stays),
        ],
    );
    world_list(rt, alloc, [lost, w])
}

/// What the graph holds where all features are on, or none.
fn pushed(rt: &impl Abort, alloc: Global, all: bool) -> String {
    let mut made: UnresolvedPackage = package(rt, alloc, "gated", "1.0.0");
    made.types = types(rt, alloc);
    made.interfaces = interfaces(rt, alloc);
    made.worlds = worlds(rt, alloc);
    let mut resolve = Resolve::new(alloc);
    resolve.set_all_features(all);
    push(rt, alloc, &mut resolve, &made, 0);
    shown_copy(rt, alloc, &resolve)
}

const WITHOUT_FEATURES: &str = "package 0 foo:gated@1.0.0\n\
    \x20 interface i 0\n\
    \x20 interface j 1\n\
    \x20 world w 0\n\
    named foo:gated@1.0.0 0\n\
    interface 0 i of package 0 since 1.0.0 deprecated 0.1.0\n\
    \x20 type t 0\n\
    \x20 stays: func stays() since 1.0.0 deprecated 0.1.0\n\
    interface 1 j of package 0\n\
    world 0 w of package 0 includes 0\n\
    \x20 import 1: interface 1\n\
    \x20 import l: type #1\n\
    \x20 export stays: func stays() since 1.0.0 deprecated 0.1.0\n\
    type #0 t of interface 0: alias u16 since 1.0.0 deprecated 0.1.0\n\
    type #1 l of world 0: alias bool\n";

const WITH_ALL_FEATURES: &str = "package 0 foo:gated@1.0.0\n\
    \x20 interface i 0\n\
    \x20 interface h 1\n\
    \x20 interface j 2\n\
    \x20 world lost 0\n\
    \x20 world w 1\n\
    named foo:gated@1.0.0 0\n\
    interface 0 i of package 0 since 1.0.0 deprecated 0.1.0\n\
    \x20 type gone 0\n\
    \x20 type t 1\n\
    \x20 left: func left() unstable f deprecated 9.0.0\n\
    \x20 stays: func stays() since 1.0.0 deprecated 0.1.0\n\
    interface 1 h of package 0 unstable f deprecated 9.0.0\n\
    \x20 type g 2\n\
    interface 2 j of package 0\n\
    world 0 lost of package 0 unstable f deprecated 9.0.0 includes 0\n\
    world 1 w of package 0 includes 0\n\
    \x20 import 2: interface 2\n\
    \x20 import k: type #3\n\
    \x20 import l: type #4\n\
    \x20 export left: func left() unstable f deprecated 9.0.0\n\
    \x20 export stays: func stays() since 1.0.0 deprecated 0.1.0\n\
    type #0 gone of interface 0: alias u8 unstable f deprecated 9.0.0\n\
    type #1 t of interface 0: alias u16 since 1.0.0 deprecated 0.1.0\n\
    type #2 g of interface 1: alias u32 unstable f deprecated 9.0.0\n\
    type #3 k of world 1: alias u64 unstable f deprecated 9.0.0\n\
    type #4 l of world 1: alias bool\n";

#[test]
fn deprecations_are_never_asked(rt: HostRuntime) {
    assert_text(&rt, pushed(&rt, rt.alloc(), false), WITHOUT_FEATURES);
    assert_text(&rt, pushed(&rt, rt.alloc(), true), WITH_ALL_FEATURES);
}
