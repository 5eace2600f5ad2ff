//! Interfaces without a name, which stand under a label in one world: they belong to its package, what they use is
//! imported before them, and an include copies them. What entries keep that are listed, and what those have that come
//! before them, is told of these and of interfaces under their own keys.
use crate::fixtures::{assert_text, list, text, type_at};
use crate::packages::parts::{
    docs, entries, first_package, function, function_entry, functions, inline_interface, interface,
    interface_list, named, of_world, package, param, push, shown_copy, since, type_entry,
    type_list, unstable, world, world_list,
};
use std::alloc::Global;
use std::process::Abort;
use wit_data::{
    Docs, Field, FunctionKind, IncludeName, Interface, InterfaceId, Items, Span, Stability, Type_,
    TypeDef, TypeDefKind, UnresolvedPackage, World, WorldId, WorldInclude, WorldItem, WorldKey,
};
use wit_resolve_graph::Resolve;

/// The entry of an interface under a label, with all that can be told of it.
fn labelled(
    rt: &impl Abort,
    alloc: Global,
    label: &str,
    index: usize,
    stability: Stability,
    span: Span,
) -> (WorldKey, WorldItem) {
    let item = WorldItem::Interface {
        id: InterfaceId::from_index(index),
        stability,
        docs: docs(rt, alloc, "Listed."),
        span,
        external_id: Some(text(rt, alloc, label)),
    };
    (WorldKey::Name(text(rt, alloc, label)), item)
}

/// The same under the key of the interface itself, with this external id.
fn keyed(
    rt: &impl Abort,
    alloc: Global,
    external_id: &str,
    index: usize,
    stability: Stability,
    span: Span,
) -> (WorldKey, WorldItem) {
    let (_, item) = labelled(rt, alloc, external_id, index, stability, span);
    (WorldKey::Interface(InterfaceId::from_index(index)), item)
}

/// Interface `a` with type `t`, and three without a name and `c`, which use `t`.
fn interfaces(rt: &impl Abort, alloc: Global) -> Items<Interface> {
    let mut f = function(rt, alloc, "f", FunctionKind::AsyncFreestanding);
    f.params = list(rt, alloc, [param(rt, alloc, "p", type_at(2))]);
    let mut imported = inline_interface(rt, alloc, &[("t", 1), ("u", 2)]);
    imported.functions = functions(rt, alloc, [f]);
    imported.docs = docs(rt, alloc, "Written in place.");
    imported.span = Span::new(50, 53);
    interface_list(
        rt,
        alloc,
        [
            interface(rt, alloc, "a", &[("t", 0)]),
            imported,
            inline_interface(rt, alloc, &[("t", 3)]),
            inline_interface(rt, alloc, &[("t", 4)]),
            interface(rt, alloc, "c", &[("t", 5)]),
        ],
    )
}

fn types(rt: &impl Abort, alloc: Global) -> Items<TypeDef> {
    let x = Field {
        name: text(rt, alloc, "x"),
        ty: type_at(1),
        docs: Docs::none(),
        span: Span::new(55, 56),
    };
    let fields = list(rt, alloc, [x]);
    type_list(
        rt,
        alloc,
        [
            named(rt, alloc, 0, "t", TypeDefKind::Type_(Type_::U32)),
            named(rt, alloc, 1, "t", TypeDefKind::Type_(type_at(0))),
            named(rt, alloc, 1, "u", TypeDefKind::Record { fields }),
            named(rt, alloc, 2, "t", TypeDefKind::Type_(type_at(0))),
            named(rt, alloc, 3, "t", TypeDefKind::Type_(type_at(0))),
            named(rt, alloc, 4, "t", TypeDefKind::Type_(type_at(0))),
        ],
    )
}

/// World `u` imports and exports `c`, and then `a`, which comes before it as `c` uses it.
fn world_of_keys(rt: &impl Abort, alloc: Global) -> World {
    let old = since(rt, alloc, "1.0.0", "1.1.0");
    let imported = keyed(rt, alloc, "c-in", 4, old, Span::new(90, 91));
    let new = unstable(rt, alloc, "new", "1.1.0");
    let used = keyed(rt, alloc, "a-in", 0, new, Span::new(92, 93));
    let new = unstable(rt, alloc, "new", "1.1.0");
    let exported = keyed(rt, alloc, "c-out", 4, new, Span::new(94, 95));
    let old = since(rt, alloc, "1.0.0", "1.1.0");
    let needed = keyed(rt, alloc, "a-out", 0, old, Span::new(96, 97));
    let mut u = world(rt, alloc, "u");
    u.imports = entries(rt, alloc, [imported, used]);
    u.exports = entries(rt, alloc, [exported, needed]);
    u
}

/// World `w` imports and exports interfaces without a name, world `v` exports one.
fn worlds(rt: &impl Abort, alloc: Global) -> Items<World> {
    let old = since(rt, alloc, "1.0.0", "1.1.0");
    let lab = labelled(rt, alloc, "lab", 1, old, Span::new(60, 63));
    let new = unstable(rt, alloc, "new", "1.1.0");
    let out = labelled(rt, alloc, "out", 2, new, Span::new(70, 73));
    let new = unstable(rt, alloc, "new", "1.1.0");
    let only = labelled(rt, alloc, "only", 3, new, Span::new(80, 84));
    let mut w = world(rt, alloc, "w");
    w.imports = entries(rt, alloc, [lab]);
    w.exports = entries(rt, alloc, [out]);
    let mut v = world(rt, alloc, "v");
    v.exports = entries(rt, alloc, [only]);
    world_list(rt, alloc, [w, v, world_of_keys(rt, alloc)])
}

fn pushed(rt: &impl Abort, alloc: Global) -> String {
    let mut resolve = Resolve::new(alloc);
    resolve.add_feature(alloc, "new").expect(rt, "memory");
    let first = first_package(rt, alloc);
    push(rt, alloc, &mut resolve, &first, 0);
    let mut made: UnresolvedPackage = package(rt, alloc, "inline", "1.2.0");
    made.types = types(rt, alloc);
    made.interfaces = interfaces(rt, alloc);
    made.worlds = worlds(rt, alloc);
    push(rt, alloc, &mut resolve, &made, 100);
    shown_copy(rt, alloc, &resolve)
}

const INLINE: &str = "package 0 foo:first\n\
    \x20 interface things 0\n\
    package 1 foo:inline@1.2.0\n\
    \x20 interface a 1\n\
    \x20 interface c 5\n\
    \x20 world w 0\n\
    \x20 world v 1\n\
    \x20 world u 2\n\
    named foo:first 0\n\
    named foo:inline@1.2.0 1\n\
    interface 0 things of package 0\n\
    \x20 type item 0\n\
    interface 1 a of package 1\n\
    \x20 type t 1\n\
    interface 2 of package 1 at 150-153 docs `Written in place.`\n\
    \x20 type t 2\n\
    \x20 type u 3\n\
    \x20 f: async func f(p: #3;)\n\
    interface 3 of package 1\n\
    \x20 type t 4\n\
    interface 4 of package 1\n\
    \x20 type t 5\n\
    interface 5 c of package 1\n\
    \x20 type t 6\n\
    world 0 w of package 1 includes 0\n\
    \x20 import 1: interface 1 since 1.0.0 deprecated 1.1.0\n\
    \x20 import lab: interface 2 since 1.0.0 deprecated 1.1.0 docs `Listed.` external `lab`\n\
    \x20 export out: interface 3 at 170-173 unstable new deprecated 1.1.0 docs `Listed.` external `out`\n\
    world 1 v of package 1 includes 0\n\
    \x20 import 1: interface 1 unstable new deprecated 1.1.0 external `only`\n\
    \x20 export only: interface 4 at 180-184 unstable new deprecated 1.1.0 docs `Listed.` external `only`\n\
    world 2 u of package 1 includes 0\n\
    \x20 import 1: interface 1 since 1.0.0 deprecated 1.1.0\n\
    \x20 import 5: interface 5 since 1.0.0 deprecated 1.1.0 docs `Listed.` external `c-in`\n\
    \x20 export 1: interface 1 unstable new deprecated 1.1.0 external `c-out`\n\
    \x20 export 5: interface 5 at 194-195 unstable new deprecated 1.1.0 docs `Listed.` external `c-out`\n\
    type #0 item of interface 0: alias u32\n\
    type #1 t of interface 1: alias u32\n\
    type #2 t of interface 2: alias #1\n\
    type #3 u of interface 2: record x: #2 at 155-156;\n\
    type #4 t of interface 3: alias #1\n\
    type #5 t of interface 4: alias #1\n\
    type #6 t of interface 5: alias #1\n";

#[test]
fn listed_entries_keep_what_is_told_of_them(rt: HostRuntime) {
    assert_text(&rt, pushed(&rt, rt.alloc()), INLINE);
}

// ---- includes

/// World `base` with an interface without a name, a type and two functions.
fn base(rt: &impl Abort, alloc: Global) -> World {
    let old = since(rt, alloc, "1.0.0", "1.1.0");
    let mut run = function(rt, alloc, "run", FunctionKind::AsyncFreestanding);
    run.params = list(rt, alloc, [param(rt, alloc, "p", type_at(1))]);
    run.docs = docs(rt, alloc, "Runs.");
    run.span = Span::new(40, 43);
    run.external_id = Some(text(rt, alloc, "run-id"));
    let mut stay = function(rt, alloc, "stay", FunctionKind::Freestanding);
    stay.span = Span::new(45, 49);
    let mut base = world(rt, alloc, "base");
    base.imports = entries(
        rt,
        alloc,
        [
            labelled(rt, alloc, "lab", 0, old, Span::new(20, 23)),
            type_entry(rt, alloc, "k", 1, Span::new(30, 31)),
            function_entry(rt, alloc, run),
            function_entry(rt, alloc, stay),
        ],
    );
    base
}

fn renamed(rt: &impl Abort, alloc: Global, name: &str, new: &str) -> IncludeName {
    IncludeName {
        name: text(rt, alloc, name),
        as_: text(rt, alloc, new),
    }
}

/// World `derived`, which includes `base` with two other labels.
fn derived(rt: &impl Abort, alloc: Global) -> World {
    let names = [
        renamed(rt, alloc, "k", "key"),
        renamed(rt, alloc, "run", "go"),
    ];
    let include = WorldInclude {
        stability: since(rt, alloc, "1.0.0", "1.1.0"),
        id: WorldId::from_index(0),
        names: list(rt, alloc, names),
        span: Span::new(90, 97),
    };
    let mut derived = world(rt, alloc, "derived");
    derived.includes = list(rt, alloc, [include]);
    derived
}

fn pushed_include(rt: &impl Abort, alloc: Global) -> String {
    let mut t = named(rt, alloc, 0, "t", TypeDefKind::Type_(Type_::U32));
    t.docs = docs(rt, alloc, "A number.");
    let mut k = of_world(rt, alloc, 0, "k", TypeDefKind::Type_(Type_::Bool));
    k.span = Span::new(33, 34);
    let mut inline = inline_interface(rt, alloc, &[("t", 0)]);
    inline.span = Span::new(25, 26);
    let mut made = package(rt, alloc, "inline", "1.2.0");
    made.types = type_list(rt, alloc, [t, k]);
    made.interfaces = interface_list(rt, alloc, [inline]);
    made.worlds = world_list(rt, alloc, [base(rt, alloc), derived(rt, alloc)]);
    let mut resolve = Resolve::new(alloc);
    push(rt, alloc, &mut resolve, &made, 100);
    shown_copy(rt, alloc, &resolve)
}

const INCLUDED: &str = "package 0 foo:inline@1.2.0\n\
    \x20 world base 0\n\
    \x20 world derived 1\n\
    named foo:inline@1.2.0 0\n\
    interface 0 of package 0 at 125-126\n\
    \x20 type t 0\n\
    interface 1 of package 0 at 125-126\n\
    \x20 type t 2\n\
    world 0 base of package 0 includes 0\n\
    \x20 import lab: interface 0 since 1.0.0 deprecated 1.1.0 docs `Listed.` external `lab`\n\
    \x20 import k: type #1 at 130-131\n\
    \x20 import run: async func run(p: #1;) at 140-143 docs `Runs.` external `run-id`\n\
    \x20 import stay: func stay() at 145-149\n\
    world 1 derived of package 0 includes 0\n\
    \x20 import lab: interface 1 since 1.0.0 deprecated 1.1.0 docs `Listed.` external `lab`\n\
    \x20 import key: type #3 at 130-131\n\
    \x20 import go: async func go(p: #3;) at 140-143 docs `Runs.` external `run-id`\n\
    \x20 import stay: func stay() at 145-149\n\
    type #0 t of interface 0: alias u32 docs `A number.`\n\
    type #1 k of world 0: alias bool at 133-134\n\
    type #2 t of interface 1: alias u32 docs `A number.`\n\
    type #3 key of world 1: alias bool at 133-134\n";

#[test]
fn interfaces_without_a_name_are_copied(rt: HostRuntime) {
    assert_text(&rt, pushed_include(&rt, rt.alloc()), INCLUDED);
}
