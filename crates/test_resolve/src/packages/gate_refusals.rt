//! Refused pushes of packages built by hand: gates and what needs what is left out, borrows in results, and what a
//! world holds. Each package is what its file says, as far as the refusal needs it.
use crate::fixtures::{assert_text, list, text, type_at};
use crate::packages::parts::{
    entries, function, function_entry, functions, inline_interface, interface, interface_entry,
    interface_list, named, of_world, package, place, since, type_entry, type_list, unnamed,
    unstable, world, world_list,
};
use crate::packages::told::refused_file;
use std::alloc::Global;
use std::process::Abort;
use wit_data::{
    Case, Docs, FunctionKind, Handle, Span, Stability, Type_, TypeDefKind, TypeId, WorldKey,
};

// ---- 9, 10: gates with a version

/// A package with an interface whose function `run` has this gate.
fn gated(
    rt: &impl Abort,
    alloc: Global,
    contents: &str,
    version: &str,
    stability: Stability,
) -> String {
    let mut run = function(rt, alloc, "run", FunctionKind::AsyncFreestanding);
    run.stability = stability;
    run.span = place(rt, contents, "run");
    let mut i = interface(rt, alloc, "i", &[]);
    i.functions = functions(rt, alloc, [run]);
    let mut main = package(rt, alloc, "main", version);
    main.interfaces = interface_list(rt, alloc, [i]);
    refused_file(rt, alloc, contents, main)
}

fn without_version(rt: &impl Abort, alloc: Global) -> String {
    let contents =
        "package foo:main;\n\ninterface i {\n  @since(version = 1.0.0)\n  run: async func();\n}\n";
    gated(rt, alloc, contents, "", since(rt, alloc, "1.0.0", "0.1.0"))
}

fn unreleased(rt: &impl Abort, alloc: Global) -> String {
    let contents =
        "package foo:main@1.0.0;\n\ninterface i {\n  @since(version = 1.1.0)\n  run: async func();\n}\n";
    gated(
        rt,
        alloc,
        contents,
        "1.0.0",
        since(rt, alloc, "1.1.0", "0.1.0"),
    )
}

#[test]
fn versions_of_gates_are_told(rt: HostRuntime) {
    assert_text(
        &rt,
        without_version(&rt, rt.alloc()),
        "9 at 120-123 message package [foo:main] contains a feature gate with a version specifier, so it must have a version\n\
        package [foo:main] contains a feature gate with a version specifier, so it must have a version\n\
        \x20    --> main.wit:5:3\n\
        \x20     |\n\
        \x20   5 |   run: async func();\n\
        \x20     |   ^--\n\
        graph as before, files first.wit main.wit to 142",
    );
    assert_text(
        &rt,
        unreleased(&rt, rt.alloc()),
        "10 at 126-129 message feature gate cannot reference unreleased version 1.1.0 of package [foo:main@1.0.0] (current version 1.0.0)\n\
        feature gate cannot reference unreleased version 1.1.0 of package [foo:main@1.0.0] (current version 1.0.0)\n\
        \x20    --> main.wit:5:3\n\
        \x20     |\n\
        \x20   5 |   run: async func();\n\
        \x20     |   ^--\n\
        graph as before, files first.wit main.wit to 148",
    );
}

// ---- 11, 12, 15: types

fn case(rt: &impl Abort, alloc: Global, name: &str, ty: Type_) -> Case {
    Case {
        name: text(rt, alloc, name),
        ty: Some(ty),
        docs: Docs::none(),
        span: Span::unknown(),
    }
}

/// A variant that holds what is left out: told at the variant's span, and not at that of the case.
fn excluded(rt: &impl Abort, alloc: Global) -> String {
    let contents =
        "package foo:main;\n\ninterface i {\n  @unstable(feature = f)\n  type gone = u32;\n  variant held { some(gone) }\n}\n";
    let mut gone = named(rt, alloc, 0, "gone", TypeDefKind::Type_(Type_::U32));
    gone.stability = unstable(rt, alloc, "f", "1.0.0");
    let mut some = case(rt, alloc, "some", type_at(0));
    some.span = place(rt, contents, "some");
    let cases = list(rt, alloc, [some]);
    let mut held = named(rt, alloc, 0, "held", TypeDefKind::Variant { cases });
    held.span = place(rt, contents, "held");
    let mut main = package(rt, alloc, "main", "");
    main.types = type_list(rt, alloc, [gone, held]);
    main.interfaces = interface_list(
        rt,
        alloc,
        [interface(rt, alloc, "i", &[("gone", 0), ("held", 1)])],
    );
    refused_file(rt, alloc, contents, main)
}

/// A type of a world that is left out.
fn excluded_owner(rt: &impl Abort, alloc: Global) -> String {
    let contents =
        "package foo:main;\n\n@unstable(feature = f)\nworld w {\n  type held = u32;\n}\n";
    let mut held = of_world(rt, alloc, 0, "held", TypeDefKind::Type_(Type_::U32));
    held.span = place(rt, contents, "held");
    let mut w = world(rt, alloc, "w");
    w.stability = unstable(rt, alloc, "f", "");
    w.imports = entries(
        rt,
        alloc,
        [type_entry(rt, alloc, "held", 0, Span::unknown())],
    );
    let mut main = package(rt, alloc, "main", "");
    main.types = type_list(rt, alloc, [held]);
    main.worlds = world_list(rt, alloc, [w]);
    refused_file(rt, alloc, contents, main)
}

#[test]
fn what_is_left_out_is_told(rt: HostRuntime) {
    assert_text(
        &rt,
        excluded(&rt, rt.alloc()),
        "11 at 146-150 message found a reference to a type which is excluded due to its feature not being activated\n\
        found a reference to a type which is excluded due to its feature not being activated\n\
        \x20    --> main.wit:6:11\n\
        \x20     |\n\
        \x20   6 |   variant held { some(gone) }\n\
        \x20     |           ^---\n\
        graph as before, files first.wit main.wit to 169",
    );
    assert_text(
        &rt,
        excluded_owner(&rt, rt.alloc()),
        "12 at 118-122 message found a reference to a world which is excluded due to its feature not being activated; this type is not gated by a feature but its world is\n\
        found a reference to a world which is excluded due to its feature not being activated; this type is not gated by a feature but its world is\n\
        \x20    --> main.wit:5:8\n\
        \x20     |\n\
        \x20   5 |   type held = u32;\n\
        \x20     |        ^---\n\
        graph as before, files first.wit main.wit to 133",
    );
}

/// An async function whose result is a variant that holds a borrow.
fn borrow_in_result(rt: &impl Abort, alloc: Global) -> String {
    let contents =
        "package foo:main;\n\ninterface i {\n  resource r;\n  variant v { held(borrow<r>) }\n  run: async func() -> v;\n}\n";
    let r = named(rt, alloc, 0, "r", TypeDefKind::Resource);
    let borrow = TypeDefKind::Handle(Handle::Borrow(TypeId::from_index(0)));
    let cases = list(rt, alloc, [case(rt, alloc, "held", type_at(1))]);
    let v = named(rt, alloc, 0, "v", TypeDefKind::Variant { cases });
    let mut run = function(rt, alloc, "run", FunctionKind::AsyncFreestanding);
    run.result_ = Some(type_at(2));
    run.span = place(rt, contents, "run");
    let mut i = interface(rt, alloc, "i", &[("r", 0), ("v", 2)]);
    i.functions = functions(rt, alloc, [run]);
    let mut main = package(rt, alloc, "main", "");
    main.types = type_list(rt, alloc, [r, unnamed(alloc, borrow), v]);
    main.interfaces = interface_list(rt, alloc, [i]);
    refused_file(rt, alloc, contents, main)
}

#[test]
fn a_borrow_in_a_result_is_told(rt: HostRuntime) {
    assert_text(
        &rt,
        borrow_in_result(&rt, rt.alloc()),
        "15 at 140-143 message function `run` returns a type which contains a `borrow<T>` which is not supported\n\
        function `run` returns a type which contains a `borrow<T>` which is not supported\n\
        \x20    --> main.wit:6:3\n\
        \x20     |\n\
        \x20   6 |   run: async func() -> v;\n\
        \x20     |   ^--\n\
        graph as before, files first.wit main.wit to 167",
    );
}

// ---- 4, 5, 17, 18: names and worlds

/// A world that exports interface `a`, and under a label an interface without a name that needs `a` through `b`.
fn conflict(rt: &impl Abort, alloc: Global) -> String {
    let contents =
        "package foo:main;\n\ninterface a { type t = u32; }\ninterface b { use a.{t}; }\n\nworld w {\n  export a;\n  export out: interface { use b.{t}; }\n}\n";
    let types = [Type_::U32, type_at(0), type_at(1)];
    let mut main = package(rt, alloc, "main", "");
    for (owner, ty) in types.into_iter().enumerate() {
        let def = named(rt, alloc, owner, "t", TypeDefKind::Type_(ty));
        main.types.push(def).expect(rt, "memory");
    }
    let a = interface(rt, alloc, "a", &[("t", 0)]);
    let b = interface(rt, alloc, "b", &[("t", 1)]);
    let inline = inline_interface(rt, alloc, &[("t", 2)]);
    main.interfaces = interface_list(rt, alloc, [a, b, inline]);
    let (_own_key, item) = interface_entry(2);
    let out = (WorldKey::Name(text(rt, alloc, "out")), item);
    let mut w = world(rt, alloc, "w");
    w.exports = entries(rt, alloc, [interface_entry(0), out]);
    w.span = place(rt, contents, "w {");
    main.worlds = world_list(rt, alloc, [w]);
    refused_file(rt, alloc, contents, main)
}

/// A second package of the name of the first.
fn twice(rt: &impl Abort, alloc: Global) -> String {
    let contents = "package foo:first;\n";
    let mut main = package(rt, alloc, "first", "");
    main.package_name_span = place(rt, contents, "foo:first");
    refused_file(rt, alloc, contents, main)
}

#[test]
fn conflicts_and_duplicates_are_told(rt: HostRuntime) {
    assert_text(
        &rt,
        conflict(&rt, rt.alloc()),
        "4 at 142-145 name out\n\
        interface `out` transitively depends on an interface in incompatible ways\n\
        \x20    --> main.wit:6:7\n\
        \x20     |\n\
        \x20   6 | world w {\n\
        \x20     |       ^--\n\
        graph as before, files first.wit main.wit to 200",
    );
    assert_text(
        &rt,
        twice(&rt, rt.alloc()),
        "5 at 67-76 name foo:first also at 0-0\n\
        package `foo:first` is defined in two different locations:\n\
        \x20 * main.wit:1:9\n\
        \x20 * <unknown>\n\
        graph as before, files first.wit main.wit to 79",
    );
}

/// A world that exports two functions of names not strongly unique.
fn alike(rt: &impl Abort, alloc: Global) -> String {
    let contents =
        "package foo:main;\n\nworld w {\n  export run: async func();\n  export RUN: func();\n}\n";
    let run = function(rt, alloc, "run", FunctionKind::AsyncFreestanding);
    let mut other = function(rt, alloc, "RUN", FunctionKind::Freestanding);
    other.span = place(rt, contents, "RUN");
    let mut w = world(rt, alloc, "w");
    w.exports = entries(
        rt,
        alloc,
        [
            function_entry(rt, alloc, run),
            function_entry(rt, alloc, other),
        ],
    );
    let mut main = package(rt, alloc, "main", "");
    main.worlds = world_list(rt, alloc, [w]);
    refused_file(rt, alloc, contents, main)
}

/// A world that imports a setter of a resource, without its getter.
fn setter_alone(rt: &impl Abort, alloc: Global) -> String {
    let contents = "package foo:main;\n\nworld w {\n  resource r { p: set; }\n}\n";
    let r = of_world(rt, alloc, 0, "r", TypeDefKind::Resource);
    let kind = FunctionKind::MethodSetter(TypeId::from_index(0));
    let mut set = function(rt, alloc, "[method][set]r.p", kind);
    set.span = place(rt, contents, "p: set");
    let mut w = world(rt, alloc, "w");
    w.imports = entries(
        rt,
        alloc,
        [
            type_entry(rt, alloc, "r", 0, Span::unknown()),
            function_entry(rt, alloc, set),
        ],
    );
    let mut main = package(rt, alloc, "main", "");
    main.types = type_list(rt, alloc, [r]);
    main.worlds = world_list(rt, alloc, [w]);
    refused_file(rt, alloc, contents, main)
}

#[test]
fn labels_are_told(rt: HostRuntime) {
    assert_text(
        &rt,
        alike(&rt, rt.alloc()),
        "17 at 0-0 message export `RUN` in world `w` conflicts with export `run` (names must be strongly unique)\n\
        export `RUN` in world `w` conflicts with export `run` (names must be strongly unique)\n\
        graph as before, files first.wit main.wit to 141",
    );
    assert_text(
        &rt,
        setter_alone(&rt, rt.alloc()),
        "18 at 103-109 message import `[method][set]r.p` in world `w` has no corresponding getter `[method][get]r.p`\n\
        import `[method][set]r.p` in world `w` has no corresponding getter `[method][get]r.p`\n\
        \x20    --> main.wit:4:16\n\
        \x20     |\n\
        \x20   4 |   resource r { p: set; }\n\
        \x20     |                ^-----\n\
        graph as before, files first.wit main.wit to 116",
    );
}
