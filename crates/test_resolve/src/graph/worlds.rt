//! All worlds of a graph elaborated at once: of two worlds, and of two of which the second is in conflict.
use crate::fixtures::{
    assert_text, entries, interface, interface_key, interface_owner, label, names, package_name,
    string, text, type_at, type_def, world,
};
use std::alloc::{AllocError, Global};
use std::fmt::Write;
use std::process::Abort;
use wit_data::{
    Docs, InterfaceId, Items, Names, PackageId, Span, Stability, Table, Text, Type_, TypeDefKind,
    World, WorldId, WorldItem, WorldKey,
};
use wit_elaboration::is_elaborable;
use wit_elaboration::rows::elaborate_all;
use wit_graph_data::{Graph, Package, ResolveResult};

/// Interface `a`, `b` that uses it, and `c` that uses both.
fn add_interfaces(rt: &impl Abort, alloc: Global, graph: &mut Graph) {
    let kinds = [
        (0, "t", Type_::U32),
        (1, "t", type_at(0)),
        (2, "t", type_at(0)),
        (2, "u", type_at(1)),
    ];
    for &(owner, name, of) in &kinds {
        let kind = TypeDefKind::Type_(of);
        let def = type_def(rt, alloc, name, kind, interface_owner(owner));
        graph.types.push(def).expect(rt, "memory");
    }
    let lists: [(&str, &[(&str, usize)]); 3] = [
        ("a", &[("t", 0)]),
        ("b", &[("t", 1)]),
        ("c", &[("t", 2), ("u", 3)]),
    ];
    for &(name, types) in &lists {
        let package = Some(PackageId::from_index(0));
        let made = interface(rt, alloc, name, types, Names::new(alloc), package);
        graph.interfaces.push(made).expect(rt, "memory");
    }
}

/// The entry of an interface, with docs, an external id, and the gate of this feature where it isn't empty.
fn entry(rt: &impl Abort, alloc: Global, index: usize, feature: &str) -> WorldItem {
    let stability = match feature {
        "" => Stability::Unknown,
        _ => Stability::Unstable {
            feature: text(rt, alloc, feature),
            deprecated: None,
        },
    };
    WorldItem::Interface {
        id: InterfaceId::from_index(index),
        stability,
        docs: Docs {
            contents: Some(text(rt, alloc, "Here.")),
        },
        span: Span::new(5, 6),
        external_id: Some(text(rt, alloc, "x")),
    }
}

/// World `v`, which imports `c`.
fn world_v(rt: &impl Abort, alloc: Global) -> World {
    let imports = entries(rt, alloc, [(interface_key(2), entry(rt, alloc, 2, "f"))]);
    let none = Table::new(alloc);
    world(rt, alloc, "v", imports, none, Items::new(alloc))
}

/// World `w`, which exports `c`, and `a` under this key.
fn world_w(rt: &impl Abort, alloc: Global, key: WorldKey) -> World {
    let first = (interface_key(2), entry(rt, alloc, 2, ""));
    let second = (key, entry(rt, alloc, 0, "g"));
    let exports = entries(rt, alloc, [first, second]);
    let none = Table::new(alloc);
    let mut made = world(rt, alloc, "w", none, exports, Items::new(alloc));
    made.span = Span::new(20, 27);
    made
}

/// Package `foo:bar`, which has all that.
fn package(rt: &impl Abort, alloc: Global) -> Package {
    let interfaces = names(
        rt,
        alloc,
        [
            (string(rt, alloc, "a"), InterfaceId::from_index(0)),
            (string(rt, alloc, "b"), InterfaceId::from_index(1)),
            (string(rt, alloc, "c"), InterfaceId::from_index(2)),
        ],
    );
    let worlds = names(
        rt,
        alloc,
        [
            (string(rt, alloc, "v"), WorldId::from_index(0)),
            (string(rt, alloc, "w"), WorldId::from_index(1)),
        ],
    );
    Package {
        name: package_name(rt, alloc, "foo", "bar"),
        docs: Docs::none(),
        interfaces,
        worlds,
    }
}

/// The graph of both worlds, of which the second exports `a` under this key.
fn graph(rt: &impl Abort, alloc: Global, key: WorldKey) -> Graph {
    let mut graph = Graph::new(alloc);
    add_interfaces(rt, alloc, &mut graph);
    let (v, w) = (world_v(rt, alloc), world_w(rt, alloc, key));
    graph.worlds.push(v).expect(rt, "memory");
    graph.worlds.push(w).expect(rt, "memory");
    let package = package(rt, alloc);
    graph.packages.push(package).expect(rt, "memory");
    graph
}

/// Elaborates the two worlds of a graph.
fn elaborate_both(rt: &impl Abort, alloc: Global, graph: &mut Graph) -> ResolveResult<()> {
    let (v, w) = (WorldId::from_index(0), WorldId::from_index(1));
    assert!(rt; graph.worlds.len() == 2);
    assert!(rt; is_elaborable(alloc, graph, v).expect(rt, "memory"));
    assert!(rt; is_elaborable(alloc, graph, w).expect(rt, "memory"));
    elaborate_all(alloc, graph)
}

/// A text, or a dash.
fn told(text: &Option<Text>) -> &str {
    match text {
        Some(text) => text.as_str(),
        None => "-",
    }
}

/// Writes an entry with all its data: its key, its interface, the feature of its gate, docs, span and external id.
fn write_entry(
    out: &mut String,
    word: &str,
    key: &WorldKey,
    item: &WorldItem,
) -> Result<(), AllocError> {
    match key {
        WorldKey::Name(label) => write!(out, "  {word} {label} =")?,
        WorldKey::Interface(id) => {
            let index = id.index();
            write!(out, "  {word} {index} =")?;
        }
    }
    match item {
        WorldItem::Interface {
            id,
            stability,
            docs,
            span,
            external_id,
        } => {
            let (index, feature) = (id.index(), feature(stability));
            let (docs, external) = (told(&docs.contents), told(external_id));
            let (start, end) = (span.start(), span.end());
            write!(out, " {index} {feature} {docs} {start}-{end} {external}\n")
        }
        WorldItem::Function(_) | WorldItem::Type_ { .. } => out.push_str(" no interface\n"),
    }
}

/// The feature of a gate, or a dash.
fn feature(stability: &Stability) -> &str {
    match stability {
        Stability::Unstable { feature, .. } => feature.as_str(),
        Stability::Unknown => "-",
        Stability::Stable { .. } => "since",
    }
}

/// The worlds with all their entries, and how many types, interfaces and packages there are.
fn shown(rt: &impl Abort, alloc: Global, graph: &Graph) -> String {
    let mut out = String::new(alloc);
    for world in graph.worlds.as_slice() {
        write!(out, "{}\n", world.name).expect(rt, "memory");
        for (key, item) in world.imports.iter() {
            write_entry(&mut out, "import", key, item).expect(rt, "memory");
        }
        for (key, item) in world.exports.iter() {
            write_entry(&mut out, "export", key, item).expect(rt, "memory");
        }
    }
    let (types, interfaces) = (graph.types.len(), graph.interfaces.len());
    let packages = graph.packages.len();
    write!(out, "of {types} {interfaces} {packages}").expect(rt, "memory");
    out
}

/// What the graph holds where `a` is exported under a label, or how it is refused, and what it holds then.
fn elaborated(rt: &impl Abort, alloc: Global, key: WorldKey) -> String {
    let mut graph = graph(rt, alloc, key);
    let answer = elaborate_both(rt, alloc, &mut graph);
    let mut out = match answer {
        Ok(()) => String::new(alloc),
        Err(refusal) => {
            let (number, span) = (refusal.number(), refusal.kind().span());
            let (start, end) = (span.start(), span.end());
            format!(in alloc; "{number} at {start}-{end} {refusal}\n").expect(rt, "memory")
        }
    };
    out.push_str(shown(rt, alloc, &graph).as_str())
        .expect(rt, "memory");
    out
}

/// What is added for an import has its gate and nothing else of it; what is added for an export its gate and its
/// external id.
const ELABORATED: &str = "v\n\
    \x20 import 0 = 0 f - 0-0 -\n\
    \x20 import 1 = 1 f - 0-0 -\n\
    \x20 import 2 = 2 f Here. 0-0 x\n\
    w\n\
    \x20 import 0 = 0 - - 0-0 x\n\
    \x20 import 1 = 1 - - 0-0 x\n\
    \x20 export 2 = 2 - Here. 5-6 x\n\
    \x20 export lab = 0 g Here. 5-6 x\n\
    of 4 3 1";

/// The first world isn't elaborated either.
const REFUSED: &str =
    "4 at 20-27 interface `foo:bar/c` transitively depends on an interface in incompatible ways\n\
    v\n\
    \x20 import 2 = 2 f Here. 5-6 x\n\
    w\n\
    \x20 export 2 = 2 - Here. 5-6 x\n\
    \x20 export 0 = 0 g Here. 5-6 x\n\
    of 4 3 1";

#[test]
fn all_worlds_are_elaborated_or_none(rt: HostRuntime) {
    let lab = label(&rt, rt.alloc(), "lab");
    assert_text(&rt, elaborated(&rt, rt.alloc(), lab), ELABORATED);
    assert_text(&rt, elaborated(&rt, rt.alloc(), interface_key(0)), REFUSED);
}
