//! Refused pushes of packages built by hand: what they use of other packages, what they include, and a span that
//! passes the end. Each package is what its file says, as far as the refusal needs it.
use crate::fixtures::{assert_text, list, text, type_at};
use crate::packages::parts::{
    entries, function, function_entry, group, interface, interface_list, name_foreign, named,
    package, place, push_group, since, type_list, unnamed, world, world_list,
};
use crate::packages::shown::shown;
use crate::packages::told::{first, refused_file, told};
use std::alloc::Global;
use std::process::Abort;
use wit_data::{
    AstItem, Docs, FunctionKind, Handle, IncludeName, InterfaceId, Items, SourceMap, Span,
    Stability, Table, TypeDefKind, TypeId, UnresolvedPackage, World, WorldId, WorldInclude,
    WorldItem, WorldKey,
};

// ---- 1, 3, 6, 13, 14: what is used of another package

/// A package whose file says `use foo:HOME/NAMED.{USED};`.
fn using(
    rt: &impl Abort,
    alloc: Global,
    contents: &str,
    home: &str,
    named_interface: &str,
    used: &str,
) -> UnresolvedPackage {
    let id = AstItem::Interface(InterfaceId::from_index(0));
    let mut made = package(rt, alloc, "main", "");
    let span = place(rt, contents, "use foo");
    name_foreign(rt, alloc, &mut made, home, span, (named_interface, id));
    let mut foreign = interface(rt, alloc, named_interface, &[(used, 0)]);
    foreign.span = place(rt, contents, named_interface);
    let own = interface(rt, alloc, "i", &[(used, 1)]);
    made.interfaces = interface_list(rt, alloc, [foreign, own]);
    let unknown = named(rt, alloc, 0, used, TypeDefKind::Unknown);
    let alias = named(rt, alloc, 1, used, TypeDefKind::Type_(type_at(0)));
    made.types = type_list(rt, alloc, [unknown, alias]);
    made.unknown_type_spans = list(rt, alloc, [place(rt, contents, used)]);
    made
}

/// How the push of such a package is refused.
fn refused_use(
    rt: &impl Abort,
    alloc: Global,
    contents: &str,
    home: &str,
    named_interface: &str,
    used: &str,
) -> String {
    let main = using(rt, alloc, contents, home, named_interface, used);
    refused_file(rt, alloc, contents, main)
}

#[test]
fn a_package_that_is_not_there_is_told(rt: HostRuntime) {
    let contents = "package foo:main;\n\ninterface i {\n  use foo:gone/things.{item};\n}\n";
    assert_text(
        &rt,
        refused_use(&rt, rt.alloc(), contents, "gone", "things", "item"),
        "1 at 94-101 requested foo:gone known foo:first foo:main\n\
        package 'foo:gone' not found. known packages:\n\
        \x20   foo:first\n\
        \x20   foo:main\n\
        \x20    --> main.wit:4:3\n\
        \x20     |\n\
        \x20   4 |   use foo:gone/things.{item};\n\
        \x20     |   ^------\n\
        graph as before, files first.wit main.wit to 125",
    );
}

#[test]
fn an_interface_that_is_not_there_is_told(rt: HostRuntime) {
    let contents = "package foo:main;\n\ninterface i {\n  use foo:first/others.{item};\n}\n";
    assert_text(
        &rt,
        refused_use(&rt, rt.alloc(), contents, "first", "others", "item"),
        "3 at 108-114 interface others package foo:first\n\
        interface 'others' not found in package 'foo:first'\n\
        \x20    --> main.wit:4:17\n\
        \x20     |\n\
        \x20   4 |   use foo:first/others.{item};\n\
        \x20     |                 ^-----\n\
        graph as before, files first.wit main.wit to 126",
    );
}

#[test]
fn a_package_that_uses_itself_is_told(rt: HostRuntime) {
    let contents = "package foo:main;\n\ninterface i {\n  use foo:main/things.{item};\n}\n";
    assert_text(
        &rt,
        refused_use(&rt, rt.alloc(), contents, "main", "things", "item"),
        "6 at 94-101 package foo:main\n\
        package `foo:main` creates a dependency cycle\n\
        \x20    --> main.wit:4:3\n\
        \x20     |\n\
        \x20   4 |   use foo:main/things.{item};\n\
        \x20     |   ^------\n\
        graph as before, files first.wit main.wit to 125",
    );
}

#[test]
fn a_type_that_is_not_defined_is_told(rt: HostRuntime) {
    let contents = "package foo:main;\n\ninterface i {\n  use foo:first/things.{tool};\n}\n";
    assert_text(
        &rt,
        refused_use(&rt, rt.alloc(), contents, "first", "things", "tool"),
        "13 at 116-120 message type `tool` not defined in interface\n\
        type `tool` not defined in interface\n\
        \x20    --> main.wit:4:25\n\
        \x20     |\n\
        \x20   4 |   use foo:first/things.{tool};\n\
        \x20     |                         ^---\n\
        graph as before, files first.wit main.wit to 126",
    );
}

/// A package with a borrow of a type of another one.
fn borrowing(rt: &impl Abort, alloc: Global) -> String {
    let contents =
        "package foo:main;\n\ninterface i {\n  use foo:first/things.{item};\n  type held = list<borrow<item>>;\n}\n";
    let mut main = using(rt, alloc, contents, "first", "things", "item");
    let unknown = named(rt, alloc, 0, "item", TypeDefKind::Unknown);
    let alias = named(rt, alloc, 1, "item", TypeDefKind::Type_(type_at(0)));
    let borrow = TypeDefKind::Handle(Handle::Borrow(TypeId::from_index(1)));
    let held = named(rt, alloc, 1, "held", TypeDefKind::List(type_at(2)));
    main.types = type_list(rt, alloc, [unknown, alias, unnamed(alloc, borrow), held]);
    let foreign = interface(rt, alloc, "things", &[("item", 0)]);
    let own = interface(rt, alloc, "i", &[("item", 1), ("held", 3)]);
    main.interfaces = interface_list(rt, alloc, [foreign, own]);
    let required = (TypeId::from_index(0), place(rt, contents, "borrow<item>"));
    main.required_resource_types = list(rt, alloc, [required]);
    refused_file(rt, alloc, contents, main)
}

#[test]
fn a_borrow_of_no_resource_is_told(rt: HostRuntime) {
    assert_text(
        &rt,
        borrowing(&rt, rt.alloc()),
        "14 at 142-154 message type used in a handle must be a resource\n\
        type used in a handle must be a resource\n\
        \x20    --> main.wit:5:20\n\
        \x20     |\n\
        \x20   5 |   type held = list<borrow<item>>;\n\
        \x20     |                    ^-----------\n\
        graph as before, files first.wit main.wit to 160",
    );
}

// ---- 2, 7, 8, 16: of includes

/// World `w`, which includes the world before it at these words.
fn including(rt: &impl Abort, alloc: Global, contents: &str, words: &str) -> World {
    let include = WorldInclude {
        stability: Stability::Unknown,
        id: WorldId::from_index(0),
        names: Items::new(alloc),
        span: place(rt, contents, words),
    };
    let mut w = world(rt, alloc, "w");
    w.includes = list(rt, alloc, [include]);
    w
}

fn foreign_include(rt: &impl Abort, alloc: Global) -> String {
    let contents = "package foo:main;\n\nworld w {\n  include foo:first/service;\n}\n";
    let mut main = package(rt, alloc, "main", "");
    let id = AstItem::World(WorldId::from_index(0));
    let span = place(rt, contents, "first");
    name_foreign(rt, alloc, &mut main, "first", span, ("service", id));
    let mut service = world(rt, alloc, "service");
    service.span = place(rt, contents, "service");
    let w = including(rt, alloc, contents, "include");
    main.worlds = world_list(rt, alloc, [service, w]);
    refused_file(rt, alloc, contents, main)
}

#[test]
fn a_world_that_is_not_there_is_told(rt: HostRuntime) {
    assert_text(
        &rt,
        foreign_include(&rt, rt.alloc()),
        "2 at 108-115 world service package foo:first\n\
        world 'service' not found in package 'foo:first'\n\
        \x20    --> main.wit:4:21\n\
        \x20     |\n\
        \x20   4 |   include foo:first/service;\n\
        \x20     |                     ^------\n\
        graph as before, files first.wit main.wit to 120",
    );
}

/// A list with function `run` alone.
fn runs(rt: &impl Abort, alloc: Global) -> Table<WorldKey, WorldItem> {
    let run = function(rt, alloc, "run", FunctionKind::AsyncFreestanding);
    entries(rt, alloc, [function_entry(rt, alloc, run)])
}

fn shadowing(rt: &impl Abort, alloc: Global) -> String {
    let contents =
        "package foo:main;\n\nworld base { export run: func(); }\n\nworld w {\n  export run: func();\n  include base;\n}\n";
    let mut base = world(rt, alloc, "base");
    base.exports = runs(rt, alloc);
    let mut w = including(rt, alloc, contents, "include base");
    w.exports = runs(rt, alloc);
    let mut main = package(rt, alloc, "main", "");
    main.worlds = world_list(rt, alloc, [base, w]);
    refused_file(rt, alloc, contents, main)
}

#[test]
fn a_label_that_is_there_is_told(rt: HostRuntime) {
    assert_text(
        &rt,
        shadowing(&rt, rt.alloc()),
        "7 at 148-160 item_type export name run\n\
        export of `run` shadows previously exported items\n\
        \x20    --> main.wit:7:3\n\
        \x20     |\n\
        \x20   7 |   include base;\n\
        \x20     |   ^-----------\n\
        graph as before, files first.wit main.wit to 165",
    );
}

/// A list with interface 0 alone, under a gate.
fn imports_under(
    rt: &impl Abort,
    alloc: Global,
    stability: Stability,
) -> Table<WorldKey, WorldItem> {
    let id = InterfaceId::from_index(0);
    let item = WorldItem::Interface {
        id,
        stability,
        docs: Docs::none(),
        span: Span::unknown(),
        external_id: None,
    };
    entries(rt, alloc, [(WorldKey::Interface(id), item)])
}

fn mismatching(rt: &impl Abort, alloc: Global) -> String {
    let contents =
        "package foo:main@1.2.0;\n\ninterface i {}\n\nworld base {\n  @since(version = 1.0.0)\n  @deprecated(version = 1.1.0)\n  import i;\n}\n\nworld w {\n  @since(version = 1.0.0)\n  import i;\n  include base;\n}\n";
    let mut base = world(rt, alloc, "base");
    base.imports = imports_under(rt, alloc, since(rt, alloc, "1.0.0", "1.1.0"));
    let mut w = including(rt, alloc, contents, "include base");
    w.imports = imports_under(rt, alloc, since(rt, alloc, "1.0.0", ""));
    let mut main = package(rt, alloc, "main", "1.2.0");
    main.interfaces = interface_list(rt, alloc, [interface(rt, alloc, "i", &[])]);
    main.worlds = world_list(rt, alloc, [base, w]);
    refused_file(rt, alloc, contents, main)
}

#[test]
fn deprecations_that_differ_are_told(rt: HostRuntime) {
    assert_text(
        &rt,
        mismatching(&rt, rt.alloc()),
        "8 at 235-247 from since 1.0.0 deprecated 1.1.0 into since 1.0.0\n\
        mismatch in stability from 'stable 1.0.0 deprecated 1.1.0' to 'stable 1.0.0'\n\
        \x20    --> main.wit:14:3\n\
        \x20     |\n\
        \x20  14 |   include base;\n\
        \x20     |   ^-----------\n\
        graph as before, files first.wit main.wit to 252",
    );
}

fn renaming(rt: &impl Abort, alloc: Global) -> String {
    let contents =
        "package foo:main;\n\nworld base { import run: func(); }\n\nworld w {\n  include base with { stop as go }\n}\n";
    let mut base = world(rt, alloc, "base");
    base.imports = runs(rt, alloc);
    let name = IncludeName {
        name: text(rt, alloc, "stop"),
        as_: text(rt, alloc, "go"),
    };
    let include = WorldInclude {
        stability: Stability::Unknown,
        id: WorldId::from_index(0),
        names: list(rt, alloc, [name]),
        span: place(rt, contents, "include base with"),
    };
    let mut w = world(rt, alloc, "w");
    w.includes = list(rt, alloc, [include]);
    let mut main = package(rt, alloc, "main", "");
    main.worlds = world_list(rt, alloc, [base, w]);
    refused_file(rt, alloc, contents, main)
}

#[test]
fn a_renaming_of_nothing_is_told(rt: HostRuntime) {
    assert_text(
        &rt,
        renaming(&rt, rt.alloc()),
        "16 at 126-143 message no import or export kebab-name `stop`. Note that an ID does not support renaming\n\
        no import or export kebab-name `stop`. Note that an ID does not support renaming\n\
        \x20    --> main.wit:6:3\n\
        \x20     |\n\
        \x20   6 |   include base with { stop as go }\n\
        \x20     |   ^----------------\n\
        graph as before, files first.wit main.wit to 162",
    );
}

// ---- 27: a span that passes the end

/// A package with a span that its file doesn't have, after files that end at 4294967259.
fn passing(rt: &impl Abort, alloc: Global) -> String {
    let mut resolve = first(rt, alloc);
    let base = SourceMap::with_base(alloc, 4294967200);
    resolve.push_source_map(alloc, base).expect(rt, "positions");
    let before = shown(rt, alloc, resolve.graph());
    let contents = "package foo:main;\n";
    let mut w = world(rt, alloc, "w");
    w.span = Span::new(30, 37);
    let mut main = package(rt, alloc, "main", "");
    main.package_name_span = place(rt, contents, "foo:main");
    main.worlds = world_list(rt, alloc, [w]);
    let main = group(rt, alloc, "main.wit", contents, main);
    let pushed = push_group(rt, alloc, &mut resolve, main);
    told(rt, alloc, before.as_str(), &resolve, pushed)
}

#[test]
fn a_place_that_passes_the_end_is_told(rt: HostRuntime) {
    assert_text(
        &rt,
        passing(&rt, rt.alloc()),
        "27 at 0-0\n\
        source positions would pass 4294967295\n\
        graph as before, files first.wit to 4294967259",
    );
}
