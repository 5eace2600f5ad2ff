//! A world whose export needs a long chain of interfaces. What elaboration makes of worlds is in the cases of
//! `test_cases`.
use crate::fixtures::{
    entries, interface, interface_item, interface_key, interface_owner, type_at, type_def, world,
};
use std::alloc::Global;
use std::process::Abort;
use wit_data::{Items, Names, PackageId, Table, Type_, TypeDefKind, World, WorldId};
use wit_elaboration::{elaborate, is_elaborable};
use wit_graph_data::Graph;

/// How long the chain of uses is.
const LENGTH: usize = 100_000;

/// Adds an interface with one type: a number, or another name of the type of the interface before it.
fn add_interface(rt: &impl Abort, alloc: Global, graph: &mut Graph, place: usize) {
    let kind = TypeDefKind::Type_(match place.checked_sub(1) {
        Some(before) => type_at(before),
        None => Type_::U32,
    });
    let def = type_def(rt, alloc, "t", kind, interface_owner(place));
    graph.types.push(def).expect(rt, "memory");
    let package = Some(PackageId::from_index(0));
    let made = interface(rt, alloc, "i", &[("t", place)], Names::new(alloc), package);
    graph.interfaces.push(made).expect(rt, "memory");
}

/// A world that exports the last interface.
fn exporting_world(rt: &impl Abort, alloc: Global) -> World {
    let last = LENGTH - 1;
    let exports = entries(rt, alloc, [(interface_key(last), interface_item(last))]);
    world(
        rt,
        alloc,
        "w",
        Table::new(alloc),
        exports,
        Items::new(alloc),
    )
}

/// How many imports a world has that exports the end of a chain of uses.
fn imports_of_a_chain(rt: &impl Abort, alloc: Global) -> usize {
    let mut graph = Graph::new(alloc);
    for place in 0..LENGTH {
        add_interface(rt, alloc, &mut graph, place);
    }
    let world = exporting_world(rt, alloc);
    graph.worlds.push(world).expect(rt, "memory");
    let world = WorldId::from_index(0);
    assert!(rt; is_elaborable(alloc, &graph, world).expect(rt, "memory"));
    elaborate(alloc, &mut graph, world).expect(rt, "no conflict");
    graph.worlds.get(0).map_or(0, |world| world.imports.len())
}

#[test]
fn long_chains_are_walked(rt: HostRuntime) {
    assert_eq!(rt; imports_of_a_chain(&rt, rt.alloc()), LENGTH - 1);
}
