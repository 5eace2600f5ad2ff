//! Another graph that goes into one, built by hand: where its things are then, what the graph holds, and that its
//! files have to fit.
use crate::fixtures::{assert_text, list, text, type_at};
use crate::packages::functions::run;
use crate::packages::kinds::{color, permissions, shape};
use crate::packages::parts::{
    functions, group, interface, interface_list, named, package, push_group, type_list, world,
    world_list,
};
use crate::packages::shown::shown;
use crate::packages::told::told;
use std::alloc::{AllocError, Global};
use std::fmt::Write;
use std::process::Abort;
use wit_data::{
    Docs, Field, InterfaceId, Items, SourceMap, Span, Type_, TypeDef, TypeDefKind, TypeId,
    UnresolvedPackage, WorldId,
};
use wit_resolve_graph::{Remap, Resolve};

/// Package `foo:bar@1.0.0` with an interface in which `t` is a resource.
fn with_resource(rt: &impl Abort, alloc: Global) -> UnresolvedPackage {
    let mut made = package(rt, alloc, "bar", "1.0.0");
    let t = named(rt, alloc, 0, "t", TypeDefKind::Resource);
    made.types = type_list(rt, alloc, [t]);
    made.interfaces = interface_list(rt, alloc, [interface(rt, alloc, "i", &[("t", 0)])]);
    made
}

/// A record at 3 to 4 with a field of the type at an index.
fn record(rt: &impl Abort, alloc: Global, name: &str, place: usize) -> TypeDef {
    let field = Field {
        name: text(rt, alloc, "a"),
        ty: type_at(place),
        docs: Docs::none(),
        span: Span::new(5, 6),
    };
    let fields = list(rt, alloc, [field]);
    let mut made = named(rt, alloc, 0, name, TypeDefKind::Record { fields });
    made.span = Span::new(3, 4);
    made
}

/// The types of interfaces 0 and 1: in the first `t` is a resource.
fn types_of_both(rt: &impl Abort, alloc: Global) -> Items<TypeDef> {
    let t = named(rt, alloc, 0, "t", TypeDefKind::Resource);
    let u = named(rt, alloc, 0, "u", TypeDefKind::Type_(Type_::U8));
    let x = record(rt, alloc, "x", 0);
    let used = named(rt, alloc, 1, "u", TypeDefKind::Type_(type_at(1)));
    let flags = permissions(rt, alloc);
    let cases = color(rt, alloc);
    let variant = shape(rt, alloc);
    type_list(rt, alloc, [t, u, x, flags, cases, variant, used])
}

/// Package `foo:bar@1.0.0` with that interface, with another that uses it, and a world.
fn with_user(rt: &impl Abort, alloc: Global) -> UnresolvedPackage {
    let mut made = package(rt, alloc, "bar", "1.0.0");
    made.types = types_of_both(rt, alloc);
    let types = [
        ("t", 0),
        ("u", 1),
        ("x", 2),
        ("permissions", 3),
        ("color", 4),
        ("shape", 5),
    ];
    let mut i = interface(rt, alloc, "i", &types);
    i.functions = functions(rt, alloc, [run(rt, alloc)]);
    let j = interface(rt, alloc, "j", &[("u", 6)]);
    made.interfaces = interface_list(rt, alloc, [i, j]);
    let mut w = world(rt, alloc, "w");
    w.span = Span::new(10, 11);
    made.worlds = world_list(rt, alloc, [w]);
    made
}

/// A `Resolve` with a package and its file.
fn holding(
    rt: &impl Abort,
    alloc: Global,
    path: &str,
    contents: &str,
    main: UnresolvedPackage,
) -> Resolve {
    let mut resolve = Resolve::new(alloc);
    resolve.add_feature(alloc, "colors").expect(rt, "memory");
    let group = group(rt, alloc, path, contents, main);
    push_group(rt, alloc, &mut resolve, group).expect(rt, "a package");
    resolve
}

/// Where the things of the other graph are, with a dash for each that is nowhere.
pub fn write_remap(out: &mut String, remap: &Remap) -> Result<(), AllocError> {
    for id in remap.types() {
        write_place(out, "type", id.map(TypeId::index))?;
    }
    for id in remap.interfaces() {
        write_place(out, "interface", id.map(InterfaceId::index))?;
    }
    for id in remap.worlds() {
        write_place(out, "world", id.map(WorldId::index))?;
    }
    for id in remap.packages() {
        write_place(out, "package", Some(id.index()))?;
    }
    out.push_str("\n")
}

fn write_place(out: &mut String, word: &str, place: Option<usize>) -> Result<(), AllocError> {
    match place {
        Some(place) => write!(out, "{word} {place} "),
        None => write!(out, "{word} - "),
    }
}

/// 15 bytes.
const CONTENTS: &str = "package foo:bar";

/// What a merge answers, what the graph then holds, and where the files end.
fn merged(rt: &impl Abort, alloc: Global) -> String {
    let mut resolve = holding(rt, alloc, "first.wit", CONTENTS, with_resource(rt, alloc));
    let other = holding(rt, alloc, "other.wit", CONTENTS, with_user(rt, alloc));
    let remap = resolve.merge(alloc, other).expect(rt, "a merge");
    assert!(rt; resolve.assert_valid(alloc).expect(rt, "memory"));
    let mut out = String::new(alloc);
    write_remap(&mut out, &remap).expect(rt, "memory");
    out.push_str(shown(rt, alloc, resolve.graph()).as_str())
        .expect(rt, "memory");
    let end = resolve.source_map().end();
    write!(out, "files to {end}").expect(rt, "memory");
    out
}

/// The resource stays, and what comes holds the `own` of it that comes too, behind all types. Spans move by 16.
const MERGED: &str =
    "type 0 type 1 type 2 type 3 type 4 type 5 type 6 type 7 interface 0 interface 1 world 0 package 0 \n\
    package 0 foo:bar@1.0.0\n\
    \x20 interface i 0\n\
    \x20 interface j 1\n\
    \x20 world w 0\n\
    named foo:bar@1.0.0 0\n\
    interface 0 i of package 0\n\
    \x20 type t 0\n\
    \x20 type u 1\n\
    \x20 type x 2\n\
    \x20 type permissions 3\n\
    \x20 type color 4\n\
    \x20 type shape 5\n\
    \x20 run: func run(a: u32 at 60-61;b: #7;) -> string at 56-59 since 0.1.0 deprecated 0.2.0 docs `Runs.` external `run-id`\n\
    interface 1 j of package 0\n\
    \x20 type u 6\n\
    world 0 w of package 0 at 26-27 includes 0\n\
    type #0 t of interface 0: resource\n\
    type #1 u of interface 0: alias u8\n\
    type #2 x of interface 0: record a: #7 at 21-22; at 19-20\n\
    type #3 permissions of interface 0: flags read at 56-60 docs `May read.`; write;\n\
    type #4 color of interface 0: enum red at 66-69 docs `As blood.`; green; unstable colors deprecated 1.1.0\n\
    type #5 shape of interface 0: variant circle: f64 at 86-92 docs `Round.`; held: #7 at 93-97; nothing;\n\
    type #6 u of interface 1: alias #1\n\
    type #7: own #0\n\
    files to 32";

/// What comes of a merge where 5 positions are left, with the contents of the other graph's file.
fn merged_near_the_end(rt: &impl Abort, alloc: Global, contents: &str) -> String {
    let mut resolve = holding(rt, alloc, "first.wit", CONTENTS, with_resource(rt, alloc));
    let base = SourceMap::with_base(alloc, 4294967274);
    resolve.push_source_map(alloc, base).expect(rt, "positions");
    let other = holding(rt, alloc, "other.wit", contents, with_resource(rt, alloc));
    let before = shown(rt, alloc, resolve.graph());
    match resolve.merge(alloc, other) {
        Ok(_) => {
            let end = resolve.source_map().end();
            format!(in alloc; "files to {end}").expect(rt, "memory")
        }
        Err(refusal) => told(rt, alloc, before.as_str(), &resolve, Err(refusal)),
    }
}

#[test]
fn another_graph_goes_into_one_where_its_files_fit(rt: HostRuntime) {
    assert_text(&rt, merged(&rt, rt.alloc()), MERGED);
    assert_text(
        &rt,
        merged_near_the_end(&rt, rt.alloc(), "12345"),
        "27 at 0-0\n\
        source positions would pass 4294967295\n\
        graph as before, files first.wit to 4294967290",
    );
    assert_text(
        &rt,
        merged_near_the_end(&rt, rt.alloc(), "1234"),
        "files to 4294967295",
    );
}
