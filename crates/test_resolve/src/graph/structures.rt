//! Types of one name in two graphs: which agree in structure, and what is told of those that don't.
use crate::fixtures::{
    assert_text, interface, interface_owner, one, package_name, string, text, type_at, type_def,
};
use crate::graph::comparing::mismatch;
use crate::graph::validity::listed_interfaces;
use std::alloc::Global;
use std::process::Abort;
use std::rt::HostRuntime;
use wit_data::{
    Case, Docs, EnumCase, Field, Flag, Handle, Items, Names, PackageId, Span, Table, Type_,
    TypeDef, TypeDefKind, TypeId, TypeOwner,
};
use wit_graph_data::{Graph, Package};

/// What a type is, its parts aside.
#[derive(Clone, Copy)]
enum Sort {
    Record,
    Variant,
    Enum,
    Flags,
    Tuple,
    Option,
    Result_,
    List,
    Map,
    Fixed(u32),
    Future,
    Stream,
    Alias,
    Own,
    Borrow,
    Resource,
}

/// What a part holds: nothing, a number, a list of numbers and an option of one, which have no names, or one of two
/// numbers with a name.
#[derive(Clone, Copy)]
enum Part {
    Nothing,
    U8,
    U16,
    ListU8,
    ListU16,
    OptionListU8,
    OptionListU16,
    First,
    Second,
}

/// A type: what it is, and its parts by their names, which count where parts have some.
type Shape = (Sort, &'static [(&'static str, Part)]);

/// The part's type in the graph of `graph_of`.
fn part_of(part: Part) -> Option<Type_> {
    match part {
        Part::Nothing => None,
        Part::U8 => Some(Type_::U8),
        Part::U16 => Some(Type_::U16),
        Part::First => Some(type_at(0)),
        Part::Second => Some(type_at(1)),
        Part::ListU8 => Some(type_at(3)),
        Part::ListU16 => Some(type_at(4)),
        Part::OptionListU8 => Some(type_at(5)),
        Part::OptionListU16 => Some(type_at(6)),
    }
}

/// The first part's type, a number where there is none.
fn first_of(parts: &[(&str, Part)]) -> Type_ {
    match parts.first() {
        Some((_, part)) => match part_of(*part) {
            Some(ty) => ty,
            None => Type_::U8,
        },
        None => Type_::U8,
    }
}

/// What a part at an index holds.
fn held_at(parts: &[(&str, Part)], index: usize) -> Option<Type_> {
    match parts.get(index) {
        Some((_, part)) => part_of(*part),
        None => None,
    }
}

fn fields(rt: &impl Abort, alloc: Global, parts: &[(&str, Part)]) -> Items<Field> {
    let mut fields = Items::new(alloc);
    for (name, part) in parts {
        let field = Field {
            name: text(rt, alloc, name),
            ty: part_of(*part).unwrap_or(Type_::U8),
            docs: Docs::none(),
            span: Span::unknown(),
        };
        fields.push(field).expect(rt, "memory");
    }
    fields
}

fn cases(rt: &impl Abort, alloc: Global, parts: &[(&str, Part)]) -> Items<Case> {
    let mut cases = Items::new(alloc);
    for (name, part) in parts {
        let case = Case {
            name: text(rt, alloc, name),
            ty: part_of(*part),
            docs: Docs::none(),
            span: Span::unknown(),
        };
        cases.push(case).expect(rt, "memory");
    }
    cases
}

fn enum_cases(rt: &impl Abort, alloc: Global, parts: &[(&str, Part)]) -> Items<EnumCase> {
    let mut cases = Items::new(alloc);
    for (name, _) in parts {
        let case = EnumCase {
            name: text(rt, alloc, name),
            docs: Docs::none(),
            span: Span::unknown(),
        };
        cases.push(case).expect(rt, "memory");
    }
    cases
}

fn flags(rt: &impl Abort, alloc: Global, parts: &[(&str, Part)]) -> Items<Flag> {
    let mut flags = Items::new(alloc);
    for (name, _) in parts {
        let flag = Flag {
            name: text(rt, alloc, name),
            docs: Docs::none(),
            span: Span::unknown(),
        };
        flags.push(flag).expect(rt, "memory");
    }
    flags
}

fn types_of(rt: &impl Abort, alloc: Global, parts: &[(&str, Part)]) -> Items<Type_> {
    let mut types = Items::new(alloc);
    for (_, part) in parts {
        let ty = part_of(*part).unwrap_or(Type_::U8);
        types.push(ty).expect(rt, "memory");
    }
    types
}

fn kind_of(rt: &impl Abort, alloc: Global, shape: Shape) -> TypeDefKind {
    let (sort, parts) = shape;
    let resource = TypeId::from_index(2);
    match sort {
        Sort::Record => TypeDefKind::Record {
            fields: fields(rt, alloc, parts),
        },
        Sort::Variant => TypeDefKind::Variant {
            cases: cases(rt, alloc, parts),
        },
        Sort::Enum => TypeDefKind::Enum {
            cases: enum_cases(rt, alloc, parts),
        },
        Sort::Flags => TypeDefKind::Flags {
            flags: flags(rt, alloc, parts),
        },
        Sort::Tuple => TypeDefKind::Tuple {
            types: types_of(rt, alloc, parts),
        },
        Sort::Option => TypeDefKind::Option(first_of(parts)),
        Sort::Result_ => TypeDefKind::Result_ {
            ok: held_at(parts, 0),
            err: held_at(parts, 1),
        },
        Sort::List => TypeDefKind::List(first_of(parts)),
        Sort::Map => TypeDefKind::Map(first_of(parts), held_at(parts, 1).unwrap_or(Type_::U8)),
        Sort::Fixed(len) => TypeDefKind::FixedLengthList(first_of(parts), len),
        Sort::Future => TypeDefKind::Future(held_at(parts, 0)),
        Sort::Stream => TypeDefKind::Stream(held_at(parts, 0)),
        Sort::Alias => TypeDefKind::Type_(first_of(parts)),
        Sort::Own => TypeDefKind::Handle(Handle::Own(resource)),
        Sort::Borrow => TypeDefKind::Handle(Handle::Borrow(resource)),
        Sort::Resource => TypeDefKind::Resource,
    }
}

/// Interface `i` of `foo:bar` with two numbers `u` and `v`, a resource `r` and a type `t` of this shape, beside four types
/// without names.
fn graph_of(rt: &impl Abort, alloc: Global, shape: Shape) -> Graph {
    let listed = [("u", 0), ("v", 1), ("r", 2), ("t", 7)];
    let types = types(rt, alloc, kind_of(rt, alloc, shape));
    holding(rt, alloc, types, &listed)
}

/// Interface `i` of `foo:bar` with these types, of which it lists some.
fn holding(
    rt: &impl Abort,
    alloc: Global,
    types: Items<TypeDef>,
    listed: &[(&str, usize)],
) -> Graph {
    let home = PackageId::from_index(0);
    let mut package_names = Table::new(alloc);
    package_names
        .push(package_name(rt, alloc, "foo", "bar"), home)
        .expect(rt, "memory");
    let package = Package {
        name: package_name(rt, alloc, "foo", "bar"),
        docs: Docs::none(),
        interfaces: listed_interfaces(rt, alloc, &[("i", 0)]),
        worlds: Names::new(alloc),
    };
    let holder = interface(rt, alloc, "i", listed, Names::new(alloc), Some(home));
    Graph {
        types,
        interfaces: one(rt, alloc, holder),
        worlds: Items::new(alloc),
        packages: one(rt, alloc, package),
        package_names,
    }
}

/// The types of the graph, the last of which is of this kind.
fn types(rt: &impl Abort, alloc: Global, kind: TypeDefKind) -> Items<TypeDef> {
    let owned = [
        ("u", TypeDefKind::Type_(Type_::U8)),
        ("v", TypeDefKind::Type_(Type_::U8)),
        ("r", TypeDefKind::Resource),
    ];
    let unnamed = [
        TypeDefKind::List(Type_::U8),
        TypeDefKind::List(Type_::U16),
        TypeDefKind::Option(type_at(3)),
        TypeDefKind::Option(type_at(4)),
    ];
    let mut types = Items::new(alloc);
    for (name, kind) in Vec::from_array(alloc, owned).expect(rt, "memory") {
        let def = type_def(rt, alloc, name, kind, interface_owner(0));
        types.push(def).expect(rt, "memory");
    }
    for kind in Vec::from_array(alloc, unnamed).expect(rt, "memory") {
        let def = type_def(rt, alloc, "", kind, TypeOwner::None);
        types.push(def).expect(rt, "memory");
    }
    let def = type_def(rt, alloc, "t", kind, interface_owner(0));
    types.push(def).expect(rt, "memory");
    types
}

/// What is told of `t`, behind where it is; `-` where nothing is.
fn told(rt: &impl Abort, alloc: Global, ours: Shape, others: Shape) -> String {
    let ours = graph_of(rt, alloc, ours);
    let other = graph_of(rt, alloc, others);
    let message = mismatch(rt, alloc, &ours, &other);
    let place =
        "failed to merge package `foo:bar` into existing copy: failed to merge interface `i`: mismatch in type `t`: ";
    match message.as_str().strip_prefix(place) {
        Some(ending) => string(rt, alloc, ending),
        None => message,
    }
}

fn shape(sort: Sort, parts: &'static [(&'static str, Part)]) -> Shape {
    (sort, parts)
}

#[test]
fn kinds_come_before_parts(rt: HostRuntime) {
    let kinds = "different kinds of types";
    let names = "different names or number of parts";
    let rows = [
        (shape(Sort::Own, &[]), shape(Sort::Borrow, &[]), kinds),
        (shape(Sort::Own, &[]), shape(Sort::Own, &[]), "-"),
        (shape(Sort::Resource, &[]), shape(Sort::Resource, &[]), "-"),
        (
            shape(Sort::Record, &[("a", Part::U8)]),
            shape(Sort::Variant, &[("a", Part::U8)]),
            kinds,
        ),
        (
            shape(Sort::Flags, &[("a", Part::Nothing)]),
            shape(Sort::Enum, &[("a", Part::Nothing)]),
            kinds,
        ),
        (
            shape(Sort::Future, &[("", Part::U8)]),
            shape(Sort::Stream, &[("", Part::U8)]),
            kinds,
        ),
        (
            shape(Sort::List, &[("", Part::U8)]),
            shape(Sort::Fixed(4), &[("", Part::U8)]),
            kinds,
        ),
        (
            shape(Sort::Tuple, &[("", Part::U8)]),
            shape(Sort::Tuple, &[("", Part::U8), ("", Part::U8)]),
            names,
        ),
        (
            shape(Sort::Record, &[("a", Part::U8)]),
            shape(Sort::Record, &[("b", Part::U16)]),
            names,
        ),
        (
            shape(Sort::Variant, &[("a", Part::U8)]),
            shape(Sort::Variant, &[("b", Part::U8)]),
            names,
        ),
        (
            shape(Sort::Enum, &[("a", Part::Nothing)]),
            shape(Sort::Enum, &[("b", Part::Nothing)]),
            names,
        ),
        (
            shape(Sort::Flags, &[("a", Part::Nothing)]),
            shape(Sort::Flags, &[]),
            names,
        ),
        (
            shape(Sort::Fixed(4), &[("", Part::U8)]),
            shape(Sort::Fixed(5), &[("", Part::U16)]),
            "different lengths",
        ),
    ];
    for &(ours, other, text) in &rows {
        assert_text(&rt, told(&rt, rt.alloc(), ours, other), text);
    }
}

#[test]
fn parts_are_told_by_their_paths(rt: HostRuntime) {
    let rows = [
        (
            shape(Sort::Record, &[("a", Part::U8), ("b", Part::ListU8)]),
            shape(Sort::Record, &[("a", Part::U8), ("b", Part::ListU16)]),
            "at b.element: different kinds of types",
        ),
        (
            shape(Sort::Record, &[("a", Part::OptionListU8)]),
            shape(Sort::Record, &[("a", Part::OptionListU16)]),
            "at a.element.element: different kinds of types",
        ),
        (
            shape(Sort::Record, &[("a", Part::OptionListU8)]),
            shape(Sort::Record, &[("a", Part::OptionListU8)]),
            "-",
        ),
        (
            shape(Sort::Variant, &[("a", Part::Nothing)]),
            shape(Sort::Variant, &[("a", Part::U8)]),
            "at a: different kinds of types",
        ),
        (
            shape(Sort::Tuple, &[("", Part::U8), ("", Part::U8)]),
            shape(Sort::Tuple, &[("", Part::U8), ("", Part::U16)]),
            "at 1: different kinds of types",
        ),
        (
            shape(Sort::Tuple, &[("", Part::U8), ("", Part::U8)]),
            shape(Sort::Tuple, &[("", Part::U16), ("", Part::U16)]),
            "at 0: different kinds of types",
        ),
        (
            shape(Sort::Option, &[("", Part::First)]),
            shape(Sort::Option, &[("", Part::Second)]),
            "at element: different types",
        ),
        (
            shape(Sort::Option, &[("", Part::First)]),
            shape(Sort::Option, &[("", Part::First)]),
            "-",
        ),
        (
            shape(Sort::Result_, &[("", Part::U8), ("", Part::U8)]),
            shape(Sort::Result_, &[("", Part::U16), ("", Part::U8)]),
            "at ok: different kinds of types",
        ),
        (
            shape(Sort::Result_, &[("", Part::Nothing), ("", Part::U8)]),
            shape(Sort::Result_, &[("", Part::Nothing)]),
            "at err: different kinds of types",
        ),
        (
            shape(Sort::Map, &[("", Part::U8), ("", Part::U8)]),
            shape(Sort::Map, &[("", Part::U16), ("", Part::U8)]),
            "at key: different kinds of types",
        ),
        (
            shape(Sort::Map, &[("", Part::U8), ("", Part::ListU8)]),
            shape(Sort::Map, &[("", Part::U8), ("", Part::ListU16)]),
            "at value.element: different kinds of types",
        ),
        (
            shape(Sort::Fixed(4), &[("", Part::U8)]),
            shape(Sort::Fixed(4), &[("", Part::U16)]),
            "at element: different kinds of types",
        ),
        (
            shape(Sort::Future, &[]),
            shape(Sort::Future, &[("", Part::U8)]),
            "at element: different kinds of types",
        ),
        (shape(Sort::Stream, &[]), shape(Sort::Stream, &[]), "-"),
        (
            shape(Sort::Alias, &[("", Part::First)]),
            shape(Sort::Alias, &[("", Part::U8)]),
            "at alias: different kinds of types",
        ),
        (
            shape(Sort::Alias, &[("", Part::First)]),
            shape(Sort::Alias, &[("", Part::Second)]),
            "at alias: different types",
        ),
        (
            shape(Sort::List, &[("", Part::ListU8)]),
            shape(Sort::List, &[("", Part::First)]),
            "at element: different kinds of types",
        ),
    ];
    for &(ours, other, text) in &rows {
        assert_text(&rt, told(&rt, rt.alloc(), ours, other), text);
    }
}

/// What pairs of pairs, so many, are: none are a number, a wide one or not.
fn level(count: usize, wide: bool) -> Type_ {
    if count > 0 {
        return type_at(count - 1);
    }
    if wide { Type_::U16 } else { Type_::U8 }
}

/// `t` as a list of pairs of pairs, so many, of numbers, where each pair is one type that is named twice.
fn doubled(rt: &impl Abort, alloc: Global, count: usize, wide: bool) -> Graph {
    let mut types = Items::new(alloc);
    for index in 0..count {
        let mut pair = one(rt, alloc, level(index, wide));
        pair.push(level(index, wide)).expect(rt, "memory");
        let kind = TypeDefKind::Tuple { types: pair };
        let def = type_def(rt, alloc, "", kind, TypeOwner::None);
        types.push(def).expect(rt, "memory");
    }
    let kind = TypeDefKind::List(level(count, wide));
    let def = type_def(rt, alloc, "t", kind, interface_owner(0));
    types.push(def).expect(rt, "memory");
    holding(rt, alloc, types, &[("t", count)])
}

/// What is told of pairs of pairs, so many, of numbers that are wide in the one and in the other or not.
fn doubled_told(rt: &impl Abort, alloc: Global, count: usize, ours: bool, other: bool) -> String {
    let ours = doubled(rt, alloc, count, ours);
    let other = doubled(rt, alloc, count, other);
    mismatch(rt, alloc, &ours, &other)
}

#[test]
fn shared_parts_are_compared_once(rt: HostRuntime) {
    let same = doubled_told(&rt, rt.alloc(), 5000, false, false);
    assert_text(&rt, same, "-");
    assert_text(
        &rt,
        doubled_told(&rt, rt.alloc(), 2, false, true),
        "failed to merge package `foo:bar` into existing copy: failed to merge interface `i`: mismatch in type `t`: at element.0.0: different kinds of types",
    );
}
