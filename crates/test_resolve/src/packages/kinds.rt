//! Types of each kind, with all that can be told of them and of their parts. They are pushed after another package,
//! and their spans move by 100: what is added is the same at the next ids, and where a value is a resource stands
//! an `own` of it, behind all types. Of a map and a result it is told which futures and streams they hold.
use crate::fixtures::{assert_text, list, text, type_at};
use crate::packages::parts::{
    docs, first_package, function, interface, interface_list, named, package, param, push,
    shown_copy, since, type_list, unnamed, unstable,
};
use std::alloc::Global;
use std::fmt::Write;
use std::process::Abort;
use wit_data::{
    Case, Docs, EnumCase, Field, Flag, FunctionKind, Handle, Interface, Items, Span, Type_,
    TypeDef, TypeDefKind, TypeId, UnresolvedPackage,
};
use wit_resolve_graph::Resolve;

fn resource(rt: &impl Abort, alloc: Global) -> TypeDef {
    let mut r = named(rt, alloc, 0, "r", TypeDefKind::Resource);
    r.docs = docs(rt, alloc, "A resource.");
    r.stability = since(rt, alloc, "1.0.0", "1.2.0");
    r.span = Span::new(30, 31);
    r.external_id = Some(text(rt, alloc, "res"));
    r
}

pub fn permissions(rt: &impl Abort, alloc: Global) -> TypeDef {
    let read = Flag {
        name: text(rt, alloc, "read"),
        docs: docs(rt, alloc, "May read."),
        span: Span::new(40, 44),
    };
    let write = Flag {
        name: text(rt, alloc, "write"),
        docs: Docs::none(),
        span: Span::unknown(),
    };
    let flags = list(rt, alloc, [read, write]);
    named(rt, alloc, 0, "permissions", TypeDefKind::Flags { flags })
}

pub fn color(rt: &impl Abort, alloc: Global) -> TypeDef {
    let red = EnumCase {
        name: text(rt, alloc, "red"),
        docs: docs(rt, alloc, "As blood."),
        span: Span::new(50, 53),
    };
    let green = EnumCase {
        name: text(rt, alloc, "green"),
        docs: Docs::none(),
        span: Span::unknown(),
    };
    let cases = list(rt, alloc, [red, green]);
    let mut color = named(rt, alloc, 0, "color", TypeDefKind::Enum { cases });
    color.stability = unstable(rt, alloc, "colors", "1.1.0");
    color
}

fn point(rt: &impl Abort, alloc: Global) -> TypeDef {
    let x = Field {
        name: text(rt, alloc, "x"),
        ty: Type_::U32,
        docs: docs(rt, alloc, "Across."),
        span: Span::new(60, 61),
    };
    let home = Field {
        name: text(rt, alloc, "home"),
        ty: type_at(0),
        docs: Docs::none(),
        span: Span::unknown(),
    };
    let fields = list(rt, alloc, [x, home]);
    let mut point = named(rt, alloc, 0, "point", TypeDefKind::Record { fields });
    point.docs = docs(rt, alloc, "A point.");
    point.span = Span::new(58, 63);
    point
}

fn case(rt: &impl Abort, alloc: Global, name: &str, ty: Option<Type_>, span: Span) -> Case {
    Case {
        name: text(rt, alloc, name),
        ty,
        docs: Docs::none(),
        span,
    }
}

pub fn shape(rt: &impl Abort, alloc: Global) -> TypeDef {
    let mut circle = case(rt, alloc, "circle", Some(Type_::F64), Span::new(70, 76));
    circle.docs = docs(rt, alloc, "Round.");
    let held = case(rt, alloc, "held", Some(type_at(0)), Span::new(77, 81));
    let nothing = case(rt, alloc, "nothing", None, Span::unknown());
    let cases = list(rt, alloc, [circle, held, nothing]);
    named(rt, alloc, 0, "shape", TypeDefKind::Variant { cases })
}

/// Types 0 to 4, which have parts.
fn types_with_parts(rt: &impl Abort, alloc: Global) -> Items<TypeDef> {
    type_list(
        rt,
        alloc,
        [
            resource(rt, alloc),
            permissions(rt, alloc),
            color(rt, alloc),
            point(rt, alloc),
            shape(rt, alloc),
        ],
    )
}

const PRIMITIVES: [Type_; 14] = [
    Type_::Bool,
    Type_::U8,
    Type_::U16,
    Type_::U32,
    Type_::U64,
    Type_::S8,
    Type_::S16,
    Type_::S32,
    Type_::S64,
    Type_::F32,
    Type_::F64,
    Type_::Char,
    Type_::String,
    Type_::ErrorContext,
];

/// Types 5 to 18, without names; the last two hold futures and streams.
fn unnamed_types(rt: &impl Abort, alloc: Global) -> Items<TypeDef> {
    let pair = list(rt, alloc, [Type_::U8, type_at(3)]);
    let primitives = list(rt, alloc, PRIMITIVES);
    let kinds = [
        TypeDefKind::Handle(Handle::Own(TypeId::from_index(0))),
        TypeDefKind::Handle(Handle::Borrow(TypeId::from_index(0))),
        TypeDefKind::Tuple { types: pair },
        TypeDefKind::Option(type_at(7)),
        TypeDefKind::Result_ {
            ok: Some(type_at(8)),
            err: None,
        },
        TypeDefKind::List(type_at(0)),
        TypeDefKind::Map(Type_::String, type_at(4)),
        TypeDefKind::FixedLengthList(Type_::F32, 4),
        TypeDefKind::Future(None),
        TypeDefKind::Stream(Some(type_at(0))),
        TypeDefKind::Future(Some(type_at(1))),
        TypeDefKind::Tuple { types: primitives },
        TypeDefKind::Map(type_at(15), type_at(13)),
        TypeDefKind::Result_ {
            ok: Some(type_at(14)),
            err: Some(type_at(13)),
        },
    ];
    let mut types = Items::new(alloc);
    for kind in Vec::from_array(alloc, kinds).expect(rt, "memory") {
        types.push(unnamed(alloc, kind)).expect(rt, "memory");
    }
    types
}

/// Types 19 to 22: other names, and types that name them.
fn aliases(rt: &impl Abort, alloc: Global) -> Items<TypeDef> {
    let both = list(rt, alloc, [type_at(20), type_at(19)]);
    let outcome = TypeDefKind::Result_ {
        ok: None,
        err: Some(type_at(2)),
    };
    type_list(
        rt,
        alloc,
        [
            named(rt, alloc, 0, "points", TypeDefKind::Type_(type_at(3))),
            named(rt, alloc, 0, "r2", TypeDefKind::Type_(type_at(0))),
            named(rt, alloc, 0, "both", TypeDefKind::Tuple { types: both }),
            named(rt, alloc, 0, "outcome", outcome),
        ],
    )
}

fn kinds_interface(rt: &impl Abort, alloc: Global) -> Interface {
    let types = [
        ("r", 0),
        ("permissions", 1),
        ("color", 2),
        ("point", 3),
        ("shape", 4),
        ("outcome", 22),
        ("points", 19),
        ("r2", 20),
        ("both", 21),
    ];
    let mut made = interface(rt, alloc, "i", &types);
    made.docs = docs(rt, alloc, "Each kind.");
    made.stability = since(rt, alloc, "1.0.0", "1.1.0");
    made.span = Span::new(20, 21);
    made
}

fn kinds_package(rt: &impl Abort, alloc: Global) -> UnresolvedPackage {
    let mut types = types_with_parts(rt, alloc);
    types.append(unnamed_types(rt, alloc)).expect(rt, "memory");
    types.append(aliases(rt, alloc)).expect(rt, "memory");
    let mut made = package(rt, alloc, "kinds", "1.2.0");
    made.docs = docs(rt, alloc, "Kinds.");
    made.package_name_span = Span::new(8, 17);
    made.types = types;
    made.interfaces = interface_list(rt, alloc, [kinds_interface(rt, alloc)]);
    made
}

/// Writes which futures and streams a function holds that takes the map and the result and answers the map.
fn write_futures(rt: &impl Abort, alloc: Global, resolve: &Resolve, out: &mut String) {
    let mut f = function(rt, alloc, "f", FunctionKind::Freestanding);
    let a = param(rt, alloc, "a", type_at(18));
    f.params = list(rt, alloc, [a, param(rt, alloc, "b", type_at(19))]);
    f.result_ = Some(type_at(18));
    let found = resolve.find_futures_and_streams(alloc, &f);
    out.push_str("held").expect(rt, "memory");
    for id in &found.expect(rt, "memory") {
        let place = id.index();
        write!(out, " #{place}").expect(rt, "memory");
    }
}

/// What the graph holds after both packages, and the futures and streams.
fn pushed(rt: &impl Abort, alloc: Global) -> String {
    let mut resolve = Resolve::new(alloc);
    resolve.add_feature(alloc, "colors").expect(rt, "memory");
    let first = first_package(rt, alloc);
    push(rt, alloc, &mut resolve, &first, 0);
    let kinds = kinds_package(rt, alloc);
    push(rt, alloc, &mut resolve, &kinds, 100);
    let mut out = shown_copy(rt, alloc, &resolve);
    write_futures(rt, alloc, &resolve, &mut out);
    out
}

const KINDS: &str = "package 0 foo:first\n\
    \x20 interface things 0\n\
    package 1 foo:kinds@1.2.0 docs `Kinds.`\n\
    \x20 interface i 1\n\
    named foo:first 0\n\
    named foo:kinds@1.2.0 1\n\
    interface 0 things of package 0\n\
    \x20 type item 0\n\
    interface 1 i of package 1 at 120-121 since 1.0.0 deprecated 1.1.0 docs `Each kind.`\n\
    \x20 type r 1\n\
    \x20 type permissions 2\n\
    \x20 type color 3\n\
    \x20 type point 4\n\
    \x20 type shape 5\n\
    \x20 type outcome 23\n\
    \x20 type points 20\n\
    \x20 type r2 21\n\
    \x20 type both 22\n\
    type #0 item of interface 0: alias u32\n\
    type #1 r of interface 1: resource at 130-131 since 1.0.0 deprecated 1.2.0 docs `A resource.` external `res`\n\
    type #2 permissions of interface 1: flags read at 140-144 docs `May read.`; write;\n\
    type #3 color of interface 1: enum red at 150-153 docs `As blood.`; green; unstable colors deprecated 1.1.0\n\
    type #4 point of interface 1: record x: u32 at 160-161 docs `Across.`; home: #24; at 158-163 docs `A point.`\n\
    type #5 shape of interface 1: variant circle: f64 at 170-176 docs `Round.`; held: #24 at 177-181; nothing;\n\
    type #6: own #1\n\
    type #7: borrow #1\n\
    type #8: tuple u8 #4\n\
    type #9: option #8\n\
    type #10: result #9 _\n\
    type #11: list #24\n\
    type #12: map string #5\n\
    type #13: list f32 of 4\n\
    type #14: future _\n\
    type #15: stream #24\n\
    type #16: future #2\n\
    type #17: tuple bool u8 u16 u32 u64 s8 s16 s32 s64 f32 f64 char string error-context\n\
    type #18: map #16 #14\n\
    type #19: result #15 #14\n\
    type #20 points of interface 1: alias #4\n\
    type #21 r2 of interface 1: alias #1\n\
    type #22 both of interface 1: tuple #25 #20\n\
    type #23 outcome of interface 1: result _ #3\n\
    type #24: own #1\n\
    type #25: own #21\n\
    held #16 #14 #15 #14 #16 #14";

#[test]
fn types_of_each_kind_are_added(rt: HostRuntime) {
    assert_text(&rt, pushed(&rt, rt.alloc()), KINDS);
}
