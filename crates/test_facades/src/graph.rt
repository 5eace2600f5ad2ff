//! The calls of `wit_graph`.
use crate::fixtures::{assert_text, file, graph, text, write_place};
use std::alloc::Global;
use std::fmt::Write;
use std::process::Abort;
use wit_graph::queries::contents::type_contents;
use wit_graph::queries::entries::{external_id_of, named_interface};
use wit_graph::queries::futures::holds_future_or_stream;
use wit_graph::queries::package_deps::package_uses;
use wit_graph::queries::valid_bits::is_valid_by;
use wit_graph::{
    Graph, GraphQueries, ResolveError, are_uses_acyclic, elaborate, external_id_value,
    find_graph_fault, implements_interface, is_elaborable, is_valid, select_world,
    version_suffix_of,
};
use wit_items::{
    Docs, InterfaceId, Items, PackageId, Span, Stability, Text, Type_, TypeDefKind, TypeId,
    WorldId, WorldItem, WorldKey,
};

/// Package 0 is `foo:dep@0.2.1` with interface 0, which has type 0 and a function that holds a future and a stream;
/// package 1 is `foo:main` with interface 1, which uses it by type 3, and a world that imports interface 1.
const SCRIPT: &str = "package foo:dep@0.2.1\n\
    interface i\n\
    type t u32\n\
    func f(a:future<t>)->stream<string>\n\
    push\n\
    package foo:main\n\
    interface j\n\
    use foo:dep/i@0.2.1 t\n\
    world w\n\
    import j\n\
    push\n";

/// The dependencies of an alias, of an interface and of a package, and the packages in order.
fn dependencies(rt: &impl Abort, alloc: Global) -> String {
    let graph = graph(rt, alloc, SCRIPT);
    assert!(rt; is_valid(alloc, &graph).expect(rt, "memory"));
    assert!(rt;
        find_graph_fault(alloc, &graph)
            .expect(rt, "memory")
            .is_none()
    );
    assert!(rt; graph.interfaces.len() == 2 && graph.packages.len() == 2);
    let mut out = String::new(alloc);
    for index in 0..graph.types.len() {
        if let Some(id) = graph.type_interface_dep(TypeId::from_index(index)) {
            let place = id.index();
            write!(out, "type {index} of {place}, ").expect(rt, "memory");
        }
    }
    for id in graph.interface_direct_deps(InterfaceId::from_index(1)) {
        let place = id.index();
        write!(out, "interface 1 uses {place}, ").expect(rt, "memory");
    }
    for id in graph.package_direct_deps(PackageId::from_index(1)) {
        let place = id.index();
        write!(out, "package 1 uses {place}, ").expect(rt, "memory");
    }
    for id in graph.topological_packages(alloc).expect(rt, "memory") {
        let place = id.index();
        write!(out, "{place};").expect(rt, "memory");
    }
    out
}

#[test]
fn dependencies_are_told(rt: HostRuntime) {
    assert_text(
        &rt,
        dependencies(&rt, rt.alloc()),
        "type 3 of 0, interface 1 uses 0, package 1 uses 0, package 1 uses 0, 0;1;",
    );
}

/// Writes which interface and which world a package has under a name.
fn write_named(rt: &impl Abort, out: &mut String, graph: &Graph, index: usize, name: &str) {
    let home = PackageId::from_index(index);
    let interface = graph.interface_in(home, name).map(|id| id.index());
    write_place(rt, out, interface);
    let world = graph.world_in(home, name).map(|id| id.index());
    write_place(rt, out, world);
}

/// What the packages have under names: interface 0 under `i`, interface 1 under `j` and world 0 under `w`; nothing of the
/// other package, of another sort, or of a package that isn't there.
fn parts_of_packages(rt: &impl Abort, alloc: Global) -> String {
    let graph = graph(rt, alloc, SCRIPT);
    let mut out = String::new(alloc);
    write_named(rt, &mut out, &graph, 0, "i");
    write_named(rt, &mut out, &graph, 0, "j");
    write_named(rt, &mut out, &graph, 0, "w");
    write_named(rt, &mut out, &graph, 1, "i");
    write_named(rt, &mut out, &graph, 1, "j");
    write_named(rt, &mut out, &graph, 1, "w");
    write_named(rt, &mut out, &graph, 2, "i");
    write_named(rt, &mut out, &graph, 2, "j");
    write_named(rt, &mut out, &graph, 2, "w");
    out
}

#[test]
fn parts_of_packages_are_found(rt: HostRuntime) {
    assert_text(
        &rt,
        parts_of_packages(&rt, rt.alloc()),
        "0 - - - - - - - 1 - - 0 - - - - - - ",
    );
}

/// Interface 0 by its id text and its canonical one, by its name in package 0, and by its key.
fn names(rt: &impl Abort, alloc: Global) -> String {
    let graph = graph(rt, alloc, SCRIPT);
    let (id, home) = (InterfaceId::from_index(0), PackageId::from_index(0));
    let key = WorldKey::Interface(id);
    let mut out = String::new(alloc);
    let told = graph.id_of(alloc, id).expect(rt, "memory");
    write!(out, "{} ", told.expect(rt, "a name")).expect(rt, "memory");
    let told = graph.canonicalized_id_of(alloc, id).expect(rt, "memory");
    write!(out, "{} ", told.expect(rt, "a name")).expect(rt, "memory");
    let told = graph.id_of_name(alloc, home, "x").expect(rt, "memory");
    write!(out, "{told} ").expect(rt, "memory");
    let told = graph.canonicalized_id_of_name(alloc, home, "x");
    write!(out, "{} ", told.expect(rt, "memory")).expect(rt, "memory");
    let told = graph.name_world_key(alloc, &key).expect(rt, "memory");
    write!(out, "{told} ").expect(rt, "memory");
    let told = graph.name_canonicalized_world_key(alloc, &key);
    write!(out, "{}", told.expect(rt, "memory")).expect(rt, "memory");
    out
}

#[test]
fn names_are_told(rt: HostRuntime) {
    assert_text(
        &rt,
        names(&rt, rt.alloc()),
        "foo:dep/i@0.2.1 foo:dep/i@0.2 foo:dep/x@0.2.1 foo:dep/x@0.2 foo:dep/i@0.2.1 foo:dep/i@0.2",
    );
}

/// The ids of the futures and streams of function `f`.
fn futures(rt: &impl Abort, alloc: Global) -> String {
    let graph = graph(rt, alloc, SCRIPT);
    assert!(rt; is_valid(alloc, &graph).expect(rt, "memory"));
    assert!(rt; !graph.interfaces.is_empty());
    let function = graph.interfaces.at(0).functions.get("f");
    let function = function.expect(rt, "a function");
    let mut out = String::new(alloc);
    for id in graph
        .find_futures_and_streams(alloc, function)
        .expect(rt, "memory")
    {
        let place = id.index();
        write!(out, "{place};").expect(rt, "memory");
    }
    out
}

#[test]
fn futures_and_streams_are_found(rt: HostRuntime) {
    assert_text(&rt, futures(&rt, rt.alloc()), "1;2;");
}

/// Writes the interfaces that the world imports, and whether the graph is valid.
fn write_imports(rt: &impl Abort, alloc: Global, out: &mut String, graph: &Graph) {
    assert!(rt; graph.worlds.len() == 1);
    for (key, _item) in graph.worlds.at(0).imports.iter() {
        if let WorldKey::Interface(id) = key {
            let place = id.index();
            write!(out, "{place},").expect(rt, "memory");
        }
    }
    let valid = is_valid(alloc, graph).expect(rt, "memory");
    write!(out, " {valid};").expect(rt, "memory");
}

/// The world as it is, with what it lists alone, and elaborated.
fn elaborated(rt: &impl Abort, alloc: Global) -> String {
    let mut graph = graph(rt, alloc, SCRIPT);
    let mut out = String::new(alloc);
    write_imports(rt, alloc, &mut out, &graph);
    assert!(rt; graph.worlds.len() == 1);
    let imports = &mut graph.worlds.at_mut(0).imports;
    imports.truncate(0);
    let key = WorldKey::Interface(InterfaceId::from_index(1));
    imports.push(key, entry(1, None)).expect(rt, "memory");
    write_imports(rt, alloc, &mut out, &graph);
    let w = WorldId::from_index(0);
    assert!(rt; is_elaborable(alloc, &graph, w).expect(rt, "memory"));
    elaborate(alloc, &mut graph, w).expect(rt, "a world");
    write_imports(rt, alloc, &mut out, &graph);
    out
}

/// The entry of an interface.
fn entry(index: usize, external_id: Option<Text>) -> WorldItem {
    WorldItem::Interface {
        id: InterfaceId::from_index(index),
        stability: Stability::Unknown,
        docs: Docs::none(),
        span: Span::unknown(),
        external_id,
    }
}

#[test]
fn worlds_are_elaborated(rt: HostRuntime) {
    assert_text(
        &rt,
        elaborated(&rt, rt.alloc()),
        "0,1, true;1, false;0,1, true;",
    );
}

/// Whether the uses of an empty graph are acyclic, of one in which interface 1 uses interface 0, and of it where
/// interface 0 uses interface 1, too; none of them has a world.
fn told_of_uses(rt: &impl Abort, alloc: Global) -> String {
    let script = "package foo:a\ninterface i\ntype t u32\ninterface j\nuse i t\npush\n";
    let empty = are_uses_acyclic(alloc, &Graph::new(alloc)).expect(rt, "memory");
    let mut graph = graph(rt, alloc, script);
    let used = are_uses_acyclic(alloc, &graph).expect(rt, "memory");
    assert!(rt; graph.types.len() == 2);
    graph.types.at_mut(0).kind = TypeDefKind::Type_(Type_::Id(TypeId::from_index(1)));
    let both = are_uses_acyclic(alloc, &graph).expect(rt, "memory");
    let worlds = graph.worlds.len();
    format!(in alloc; "{empty} {used} {both} of {worlds}").expect(rt, "memory")
}

#[test]
fn uses_are_told_to_be_acyclic(rt: HostRuntime) {
    assert_text(&rt, told_of_uses(&rt, rt.alloc()), "true true false of 0");
}

/// The only world of package 1, and what the canonical name of an interface of each package leaves out.
fn chosen(rt: &impl Abort, alloc: Global) -> String {
    let graph = graph(rt, alloc, SCRIPT);
    let mut out = String::new(alloc);
    let world = select_world(alloc, &graph, &[PackageId::from_index(1)], None);
    write_place(rt, &mut out, Some(world.expect(rt, "a world").index()));
    let suffix = version_suffix_of(alloc, &graph, InterfaceId::from_index(0));
    let suffix = suffix.expect(rt, "memory").expect(rt, "a suffix");
    let none = version_suffix_of(alloc, &graph, InterfaceId::from_index(1));
    let is_none = none.expect(rt, "memory").is_none();
    write!(out, "{suffix} {is_none}").expect(rt, "memory");
    out
}

/// The interface of an entry under a label and under its own key, an interface that is there and one that isn't, and the
/// external ids of an entry that has one and of one that has none.
fn told_of_entries(rt: &impl Abort, alloc: Global) -> String {
    let graph = graph(rt, alloc, SCRIPT);
    let (id, absent) = (InterfaceId::from_index(0), InterfaceId::from_index(2));
    let label = WorldKey::Name(text(rt, alloc, "lab"));
    let own = WorldKey::Interface(id);
    let (item, plain) = (entry(0, Some(text(rt, alloc, "e"))), entry(0, None));
    let mut out = String::new(alloc);
    let under_label = implements_interface(&graph, &label, &item);
    write_place(rt, &mut out, under_label.map(InterfaceId::index));
    let under_own = implements_interface(&graph, &own, &item);
    write_place(rt, &mut out, under_own.map(InterfaceId::index));
    let there = named_interface(&graph, id);
    write_place(rt, &mut out, there.map(InterfaceId::index));
    let missing = named_interface(&graph, absent);
    write_place(rt, &mut out, missing.map(InterfaceId::index));
    let looked_at = external_id_of(&graph, &item).expect(rt, "an id");
    let copied = external_id_value(alloc, &graph, &item).expect(rt, "memory");
    let copied = copied.expect(rt, "an id");
    let none = external_id_value(alloc, &graph, &plain).expect(rt, "memory");
    let is_none = none.is_none();
    write!(out, "{looked_at} {copied} {is_none}").expect(rt, "memory");
    out
}

fn write_rows(rt: &impl Abort, out: &mut String, rows: &Items<Items<usize>>) {
    for row in rows.iter() {
        for place in row.iter() {
            write!(out, "{place},").expect(rt, "memory");
        }
        out.push_str(";").expect(rt, "memory");
    }
}

/// What the values of each type hold, whether types 1 and 0 are futures or streams of function `f`, and which packages
/// each package uses.
fn held(rt: &impl Abort, alloc: Global) -> String {
    let graph = graph(rt, alloc, SCRIPT);
    assert!(rt; is_valid(alloc, &graph).expect(rt, "memory"));
    assert!(rt; !graph.interfaces.is_empty());
    let function = graph.interfaces.at(0).functions.get("f");
    let function = function.expect(rt, "a function");
    let future = holds_future_or_stream(alloc, &graph, function, TypeId::from_index(1));
    let future = future.expect(rt, "memory");
    let number = holds_future_or_stream(alloc, &graph, function, TypeId::from_index(0));
    let number = number.expect(rt, "memory");
    let mut out = String::new(alloc);
    let rows = type_contents(alloc, graph.types.as_slice()).expect(rt, "memory");
    write_rows(rt, &mut out, &rows);
    write!(out, " {future} {number} ").expect(rt, "memory");
    let rows = package_uses(alloc, &graph).expect(rt, "memory");
    write_rows(rt, &mut out, &rows);
    out
}

#[test]
fn questions_are_answered_by_functions(rt: HostRuntime) {
    let alloc = rt.alloc();
    assert_text(&rt, chosen(&rt, alloc), "0 .1 true");
    assert_text(&rt, told_of_entries(&rt, alloc), "0 - 0 - e e true");
    assert_text(&rt, held(&rt, alloc), ";0,;;0,; true false ;0,0,;");
    for (ty, wanted) in [
        (Type_::U32, true),
        (Type_::Bool, false),
        (Type_::Id(TypeId::from_index(0)), true),
        (Type_::Id(TypeId::from_index(1)), false),
        (Type_::Id(TypeId::from_index(2)), false),
    ] {
        assert_eq!(rt; is_valid_by(&[true, false], ty), wanted);
    }
}

/// The number of an error and its text, and how it is told in its file.
fn error(rt: &impl Abort, alloc: Global) -> String {
    let map = file(rt, alloc);
    let message = String::from_str(alloc, "bad").expect(rt, "memory");
    let error = ResolveError::new_semantic(Span::new(13, 18), message);
    let shown = error.render(alloc, &map).expect(rt, "memory");
    let number = error.number();
    format!(in alloc; "{number} {error} {shown}").expect(rt, "memory")
}

#[test]
fn errors_are_told_in_their_line(rt: HostRuntime) {
    assert_text(
        &rt,
        error(&rt, rt.alloc()),
        "0 bad bad\n\
        \x20    --> m.wit:2:1\n\
        \x20     |\n\
        \x20   2 | world w {}\n\
        \x20     | ^----",
    );
}
