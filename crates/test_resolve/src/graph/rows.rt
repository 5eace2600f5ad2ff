//! Rows of bits: joins of every small length, and what a closure tells against a plain loop, on graphs of fewer
//! interfaces than a row has columns, of as many, and of more.
use crate::fixtures::{assert_text, interface, interface_owner, type_at, type_def};
use std::alloc::Global;
use std::process::Abort;
use wit_data::{Items, Names, PackageId, Type_, TypeDefKind, uses_of};
use wit_digraph::is_acyclic;
use wit_elaboration::rows::{Closure, or_into};
use wit_graph_data::Graph;

/// A row joined with another of the same length.
fn joined(rt: &impl Abort, alloc: Global, into: &[u64], from: &[u64]) -> String {
    assert_eq!(rt; into.len(), from.len());
    let mut row = Vec::from_slice(alloc, into).expect(rt, "memory");
    or_into(&mut row, from);
    format!(in alloc; "{row:?}").expect(rt, "memory")
}

#[test]
fn rows_of_five_words_are_joined(rt: HostRuntime) {
    let told = joined(&rt, rt.alloc(), &[1, 2, 4, 8, 16], &[16, 8, 4, 2, 1]);
    assert_text(&rt, told, "[17, 10, 4, 10, 17]");
}

/// Whether a join of rows of so many words is that of a plain loop.
fn is_plain_join(rt: &impl Abort, alloc: Global, words: u64) -> bool {
    let mut into = Vec::new(alloc);
    let mut from = Vec::new(alloc);
    let mut wanted = Vec::new(alloc);
    for word in 0..words {
        let one = word.wrapping_mul(0x9E37_79B9_7F4A_7C15);
        let other = one.rotate_left(29) ^ word;
        into.push(one).expect(rt, "memory");
        from.push(other).expect(rt, "memory");
        wanted.push(one | other).expect(rt, "memory");
    }
    assert_eq!(rt; into.len(), from.len());
    or_into(&mut into, &from);
    into == wanted
}

#[test]
fn rows_of_each_small_length_are_joined(rt: HostRuntime) {
    for words in 0..10 {
        assert!(rt; is_plain_join(&rt, rt.alloc(), words));
    }
}

/// What the interfaces of a graph use.
#[derive(Clone, Copy)]
enum Shape {
    /// The two before.
    Chain,
    /// Nothing.
    Separate,
    /// Ten of the hundred before the own hundred.
    Layers,
    /// Three in four two of those before, without a pattern.
    Random,
}

/// The interface that is use `turn` of one, where it has so many.
fn use_at(shape: Shape, interface: usize, turn: usize) -> Option<usize> {
    match shape {
        Shape::Separate => None,
        Shape::Chain if turn < 2 => interface.checked_sub(turn.wrapping_add(1)),
        Shape::Layers => {
            let below = (interface / 100).checked_sub(1)?;
            let place = interface
                .wrapping_mul(7)
                .wrapping_add(turn.wrapping_mul(13))
                % 100;
            Some(below.wrapping_mul(100).wrapping_add(place))
        }
        Shape::Random if turn < 2 && interface % 4 != 0 => {
            let mixed = interface
                .wrapping_add(turn.wrapping_mul(331))
                .wrapping_mul(0x9E37_79B9);
            (mixed / 32).checked_rem(interface)
        }
        _ => None,
    }
}

/// The labels of the types that interfaces use.
const LABELS: [&str; 10] = ["a", "b", "c", "d", "e", "f", "g", "h", "i", "j"];

/// Adds an interface with its type and one more for each use. The types of all interfaces stand in front.
fn add_interface(rt: &impl Abort, alloc: Global, graph: &mut Graph, shape: Shape, place: usize) {
    let mut types = Vec::new(alloc);
    types.push(("t", place)).expect(rt, "memory");
    for (turn, label) in LABELS.iter().enumerate() {
        if let Some(used) = use_at(shape, place, turn) {
            types.push((*label, graph.types.len())).expect(rt, "memory");
            let kind = TypeDefKind::Type_(type_at(used));
            let def = type_def(rt, alloc, label, kind, interface_owner(place));
            graph.types.push(def).expect(rt, "memory");
        }
    }
    let package = Some(PackageId::from_index(0));
    let made = interface(rt, alloc, "i", &types, Names::new(alloc), package);
    graph.interfaces.push(made).expect(rt, "memory");
}

/// A graph of so many interfaces.
fn graph_of(rt: &impl Abort, alloc: Global, shape: Shape, interfaces: usize) -> Graph {
    let mut graph = Graph::new(alloc);
    for place in 0..interfaces {
        let def = type_def(
            rt,
            alloc,
            "t",
            TypeDefKind::Type_(Type_::U32),
            interface_owner(place),
        );
        graph.types.push(def).expect(rt, "memory");
    }
    for place in 0..interfaces {
        add_interface(rt, alloc, &mut graph, shape, place);
    }
    graph
}

/// Which interfaces one reaches, by a plain loop: each uses earlier ones alone.
fn plain_reach(rt: &impl Abort, alloc: Global, uses: &[Items<usize>], from: usize) -> Vec<bool> {
    let mut reached = vec![in alloc; false; uses.len()].expect(rt, "memory");
    if let Some(mark) = reached.get_mut(from) {
        *mark = true;
    }
    for (place, used) in uses.iter().enumerate().rev() {
        if reached.get(place) == Some(&true) {
            for node in used.as_slice() {
                if let Some(mark) = reached.get_mut(*node) {
                    *mark = true;
                }
            }
        }
    }
    reached
}

/// Whether a closure tells of two interfaces what the plain loop from the first did.
fn agrees(closure: &mut Closure, from: usize, to: usize, reached: bool) -> bool {
    let interfaces = closure.interfaces();
    from < interfaces && to < interfaces && closure.reaches(from, to) == reached
}

/// In how many pairs of interfaces, of the last one and every 397th before it with any other, a closure differs from the
/// plain loop, and how many rows it joined.
fn compared(rt: &impl Abort, alloc: Global, shape: Shape, interfaces: usize) -> (usize, u128) {
    let graph = graph_of(rt, alloc, shape, interfaces);
    let uses = uses_of(alloc, graph.types.as_slice(), graph.interfaces.as_slice()).expect(
        rt, "memory",
    );
    assert!(rt; is_acyclic(alloc, uses.as_slice()).expect(rt, "memory"));
    let mut closure = Closure::of(alloc, &graph).expect(rt, "memory");
    assert_eq!(rt; closure.interfaces(), interfaces);
    let mut differences = 0usize;
    for from in (0..interfaces).rev().step_by(397) {
        let reached = plain_reach(rt, alloc, uses.as_slice(), from);
        for (to, mark) in reached.iter().enumerate() {
            if !agrees(&mut closure, from, to, *mark) {
                differences = differences.wrapping_add(1);
            }
        }
    }
    (differences, closure.joins())
}

#[test]
fn closures_tell_what_a_plain_loop_does(rt: HostRuntime) {
    // each shape below, at and above 1,024 interfaces, with how many uses its interfaces have in all
    let graphs = [
        (Shape::Chain, 60, 117),
        (Shape::Chain, 1024, 2045),
        (Shape::Chain, 1025, 2047),
        (Shape::Chain, 1200, 2397),
        (Shape::Separate, 1200, 0),
        (Shape::Layers, 1024, 9240),
        (Shape::Layers, 1200, 11000),
        (Shape::Random, 60, 90),
        (Shape::Random, 1024, 1536),
        (Shape::Random, 1025, 1536),
        (Shape::Random, 1200, 1800),
    ];
    for (shape, interfaces, uses) in graphs {
        assert_eq!(rt; compared(&rt, rt.alloc(), shape, interfaces), (0, uses));
    }
}
