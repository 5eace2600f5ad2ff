//! Functions of each kind, async ones among them, in an interface and in a world.
use crate::fixtures::{assert_text, list, text, type_at};
use crate::packages::parts::{
    docs, entries, first_package, function, function_entry, functions, interface, interface_list,
    named, of_world, package, param, push, shown_copy, since, type_entry, type_list, unnamed,
    unstable, world, world_list,
};
use std::alloc::Global;
use std::process::Abort;
use wit_data::{
    Function, FunctionKind, Handle, Interface, Items, Names, Span, Table, Type_, TypeDef,
    TypeDefKind, TypeId, UnresolvedPackage, World, WorldItem, WorldKey,
};
use wit_resolve_graph::Resolve;

/// A function of a resource with one parameter.
fn with_param(
    rt: &impl Abort,
    alloc: Global,
    name: &str,
    kind: FunctionKind,
    ty: Type_,
) -> Function {
    let mut made = function(rt, alloc, name, kind);
    made.params = list(rt, alloc, [param(rt, alloc, "p", ty)]);
    made
}

/// A function with all that can be told of it.
pub fn run(rt: &impl Abort, alloc: Global) -> Function {
    let mut made = function(rt, alloc, "run", FunctionKind::Freestanding);
    let mut a = param(rt, alloc, "a", Type_::U32);
    a.span = Span::new(44, 45);
    made.params = list(rt, alloc, [a, param(rt, alloc, "b", type_at(0))]);
    made.result_ = Some(Type_::String);
    made.docs = docs(rt, alloc, "Runs.");
    made.stability = since(rt, alloc, "0.1.0", "0.2.0");
    made.span = Span::new(40, 43);
    made.external_id = Some(text(rt, alloc, "run-id"));
    made
}

fn start(rt: &impl Abort, alloc: Global) -> Function {
    let mut made = function(rt, alloc, "start", FunctionKind::AsyncFreestanding);
    made.docs = docs(rt, alloc, "Starts.");
    made.stability = unstable(rt, alloc, "tasks", "0.2.0");
    made.span = Span::new(50, 55);
    made.external_id = Some(text(rt, alloc, "start-id"));
    made
}

/// A function of each kind: type 0 is their resource, type 1 a borrow of it.
fn each_kind(rt: &impl Abort, alloc: Global) -> Names<Function> {
    let r = TypeId::from_index(0);
    let mut made = function(rt, alloc, "[constructor]r", FunctionKind::Constructor(r));
    made.result_ = Some(type_at(0));
    let mut asked = function(rt, alloc, "[get]p", FunctionKind::Getter);
    asked.result_ = Some(Type_::U8);
    let method = FunctionKind::Method(r);
    let async_method = FunctionKind::AsyncMethod(r);
    let async_static = FunctionKind::AsyncStatic(r);
    let getter = FunctionKind::MethodGetter(r);
    let setter = FunctionKind::MethodSetter(r);
    let static_getter = FunctionKind::StaticGetter(r);
    let static_setter = FunctionKind::StaticSetter(r);
    functions(
        rt,
        alloc,
        [
            run(rt, alloc),
            start(rt, alloc),
            made,
            with_param(rt, alloc, "[method]r.m", method, type_at(1)),
            with_param(rt, alloc, "[method]r.am", async_method, type_at(1)),
            function(rt, alloc, "[static]r.s", FunctionKind::Static(r)),
            with_param(rt, alloc, "[static]r.as", async_static, type_at(0)),
            asked,
            with_param(rt, alloc, "[set]p", FunctionKind::Setter, Type_::U8),
            with_param(rt, alloc, "[method][get]r.q", getter, type_at(1)),
            with_param(rt, alloc, "[method][set]r.q", setter, type_at(1)),
            function(rt, alloc, "[static][get]r.z", static_getter),
            with_param(rt, alloc, "[static][set]r.z", static_setter, Type_::Bool),
        ],
    )
}

fn functions_interface(rt: &impl Abort, alloc: Global) -> Interface {
    let mut made = interface(rt, alloc, "i", &[("r", 0)]);
    made.functions = each_kind(rt, alloc);
    made
}

fn borrow_of(alloc: Global, index: usize) -> TypeDef {
    let id = TypeId::from_index(index);
    unnamed(alloc, TypeDefKind::Handle(Handle::Borrow(id)))
}

/// What the graph holds after another package, and one with these types and worlds and with this interface.
fn pushed(
    rt: &impl Abort,
    alloc: Global,
    types: Items<TypeDef>,
    interfaces: Items<Interface>,
    worlds: Items<World>,
) -> String {
    let mut resolve = Resolve::new(alloc);
    resolve.add_feature(alloc, "tasks").expect(rt, "memory");
    let first = first_package(rt, alloc);
    push(rt, alloc, &mut resolve, &first, 0);
    let mut made: UnresolvedPackage = package(rt, alloc, "f", "0.2.0");
    made.types = types;
    made.interfaces = interfaces;
    made.worlds = worlds;
    push(rt, alloc, &mut resolve, &made, 1000);
    shown_copy(rt, alloc, &resolve)
}

fn pushed_interface(rt: &impl Abort, alloc: Global) -> String {
    let r = named(rt, alloc, 0, "r", TypeDefKind::Resource);
    let types = type_list(rt, alloc, [r, borrow_of(alloc, 0)]);
    let interfaces = interface_list(rt, alloc, [functions_interface(rt, alloc)]);
    pushed(rt, alloc, types, interfaces, Items::new(alloc))
}

const IN_AN_INTERFACE: &str = "package 0 foo:first\n\
    \x20 interface things 0\n\
    package 1 foo:f@0.2.0\n\
    \x20 interface i 1\n\
    named foo:first 0\n\
    named foo:f@0.2.0 1\n\
    interface 0 things of package 0\n\
    \x20 type item 0\n\
    interface 1 i of package 1\n\
    \x20 type r 1\n\
    \x20 run: func run(a: u32 at 1044-1045;b: #3;) -> string at 1040-1043 since 0.1.0 deprecated 0.2.0 docs `Runs.` external `run-id`\n\
    \x20 start: async func start() at 1050-1055 unstable tasks deprecated 0.2.0 docs `Starts.` external `start-id`\n\
    \x20 [constructor]r: constructor of #1 [constructor]r() -> #3\n\
    \x20 [method]r.m: method of #1 [method]r.m(p: #2;)\n\
    \x20 [method]r.am: async method of #1 [method]r.am(p: #2;)\n\
    \x20 [static]r.s: static of #1 [static]r.s()\n\
    \x20 [static]r.as: async static of #1 [static]r.as(p: #3;)\n\
    \x20 [get]p: getter [get]p() -> u8\n\
    \x20 [set]p: setter [set]p(p: u8;)\n\
    \x20 [method][get]r.q: method getter of #1 [method][get]r.q(p: #2;)\n\
    \x20 [method][set]r.q: method setter of #1 [method][set]r.q(p: #2;)\n\
    \x20 [static][get]r.z: static getter of #1 [static][get]r.z()\n\
    \x20 [static][set]r.z: static setter of #1 [static][set]r.z(p: bool;)\n\
    type #0 item of interface 0: alias u32\n\
    type #1 r of interface 1: resource\n\
    type #2: borrow #1\n\
    type #3: own #1\n";

#[test]
fn functions_of_each_kind_are_added(rt: HostRuntime) {
    assert_text(&rt, pushed_interface(&rt, rt.alloc()), IN_AN_INTERFACE);
}

/// A setter before its getter, async functions, and the resource of one of them, which is type 0.
fn imports(rt: &impl Abort, alloc: Global) -> Table<WorldKey, WorldItem> {
    let r = TypeId::from_index(0);
    let set = with_param(rt, alloc, "[set]p", FunctionKind::Setter, Type_::U8);
    let get = function(rt, alloc, "[get]p", FunctionKind::Getter);
    let method = FunctionKind::AsyncMethod(r);
    let method = with_param(rt, alloc, "[method]r.m", method, type_at(1));
    entries(
        rt,
        alloc,
        [
            function_entry(rt, alloc, set),
            function_entry(rt, alloc, method),
            function_entry(rt, alloc, start(rt, alloc)),
            type_entry(rt, alloc, "r", 0, Span::new(60, 61)),
            function_entry(rt, alloc, get),
        ],
    )
}

fn functions_world(rt: &impl Abort, alloc: Global) -> World {
    let fetch = FunctionKind::AsyncStatic(TypeId::from_index(0));
    let fetch = with_param(rt, alloc, "[static]r.fetch", fetch, type_at(0));
    let mut made = world(rt, alloc, "w");
    made.imports = imports(rt, alloc);
    made.exports = entries(
        rt,
        alloc,
        [
            function_entry(rt, alloc, fetch),
            function_entry(rt, alloc, run(rt, alloc)),
            function_entry(rt, alloc, start(rt, alloc)),
        ],
    );
    made.docs = docs(rt, alloc, "A world.");
    made.stability = since(rt, alloc, "0.1.0", "0.1.1");
    made.span = Span::new(10, 11);
    made
}

fn pushed_world(rt: &impl Abort, alloc: Global) -> String {
    let mut r = of_world(rt, alloc, 0, "r", TypeDefKind::Resource);
    r.docs = docs(rt, alloc, "Its own.");
    let types = type_list(rt, alloc, [r, borrow_of(alloc, 0)]);
    let worlds = world_list(rt, alloc, [functions_world(rt, alloc)]);
    pushed(rt, alloc, types, Items::new(alloc), worlds)
}

const IN_A_WORLD: &str = "package 0 foo:first\n\
    \x20 interface things 0\n\
    package 1 foo:f@0.2.0\n\
    \x20 world w 0\n\
    named foo:first 0\n\
    named foo:f@0.2.0 1\n\
    interface 0 things of package 0\n\
    \x20 type item 0\n\
    world 0 w of package 1 at 1010-1011 since 0.1.0 deprecated 0.1.1 docs `A world.` includes 0\n\
    \x20 import r: type #1 at 1060-1061\n\
    \x20 import start: async func start() at 1050-1055 unstable tasks deprecated 0.2.0 docs `Starts.` external `start-id`\n\
    \x20 import [get]p: getter [get]p()\n\
    \x20 import [set]p: setter [set]p(p: u8;)\n\
    \x20 import [method]r.m: async method of #1 [method]r.m(p: #2;)\n\
    \x20 export [static]r.fetch: async static of #1 [static]r.fetch(p: #3;)\n\
    \x20 export run: func run(a: u32 at 1044-1045;b: #3;) -> string at 1040-1043 since 0.1.0 deprecated 0.2.0 docs `Runs.` external `run-id`\n\
    \x20 export start: async func start() at 1050-1055 unstable tasks deprecated 0.2.0 docs `Starts.` external `start-id`\n\
    type #0 item of interface 0: alias u32\n\
    type #1 r of world 0: resource docs `Its own.`\n\
    type #2: borrow #1\n\
    type #3: own #1\n";

#[test]
fn functions_of_a_world_are_sorted(rt: HostRuntime) {
    assert_text(&rt, pushed_world(&rt, rt.alloc()), IN_A_WORLD);
}
