//! What of other graphs is found in a valid one, and where the rest goes.
use crate::graph::validity::{Breach, graph};
use std::alloc::Global;
use std::fmt::Write;
use std::process::Abort;
use wit_data::{Id, Items, TryClone};
use wit_graph_data::Graph;
use wit_merge_match::{Matches, MergeIds, find_ids, find_matches, leaves_graph};
use wit_validity::is_valid;

/// Of each package, world, interface and type of the graph with this change the id of that of the valid graph with
/// which it is matched, `-` where there is none; then where each goes, and whether a merge leaves what was there.
fn matches_of(rt: &impl Abort, alloc: Global, breach: Breach) -> String {
    let ours = graph(rt, alloc, Breach::Nothing);
    let other = graph(rt, alloc, breach);
    told(rt, alloc, &ours, &other)
}

fn told(rt: &impl Abort, alloc: Global, ours: &Graph, other: &Graph) -> String {
    let mut text = String::new(alloc);
    if is_valid(alloc, ours).expect(rt, "memory") {
        let found = find_matches(alloc, ours, other).expect(rt, "memory");
        show_matches(rt, &found, &mut text);
        let going = find_ids(alloc, ours, other, &found).expect(rt, "memory");
        show_places(rt, &going, &mut text);
        let left = leaves_graph(ours, other, &found);
        text.push_str(if left { " left" } else { " changed" })
            .expect(rt, "memory");
    }
    text
}

fn show_matches(rt: &impl Abort, found: &Matches, text: &mut String) {
    show_ids(rt, &found.packages, text);
    show_ids(rt, &found.worlds, text);
    show_ids(rt, &found.interfaces, text);
    show_ids(rt, &found.types, text);
}

fn show_places(rt: &impl Abort, going: &MergeIds, text: &mut String) {
    text.push_str(" to").expect(rt, "memory");
    for package in going.packages.as_slice() {
        show(rt, package.index(), text);
    }
    text.push_str(";").expect(rt, "memory");
    show_ids(rt, &going.new_ids.worlds, text);
    show_ids(rt, &going.new_ids.interfaces, text);
    show_ids(rt, &going.new_ids.types, text);
}

fn show_ids<S>(rt: &impl Abort, ids: &Items<Option<Id<S>>>, text: &mut String) {
    for id in ids.as_slice() {
        match id.try_clone().expect(rt, "memory") {
            Some(id) => show(rt, id.index(), text),
            None => text.push_str(" -").expect(rt, "memory"),
        }
    }
    text.push_str(";").expect(rt, "memory");
}

fn show(rt: &impl Abort, place: usize, text: &mut String) {
    write!(text, " {place}").expect(rt, "memory");
}

#[test]
fn things_are_matched_by_names_and_places(rt: HostRuntime) {
    let told = [
        // itself: a type without a name is matched with none, and goes behind all
        (
            Breach::Nothing,
            " 0 1; 0; 0 1 2 3; 0 - 2 3 4 5; to 0 1; 0; 0 1 2 3; 0 6 2 3 4 5; left",
        ),
        // another name of an interface, and so other types of it: its package has one more
        (
            Breach::InterfaceNotKebab,
            " 0 1; 0; 0 1 2 -; 0 - 2 3 4 -; to 0 1; 0; 0 1 2 4; 0 6 2 3 4 7; changed",
        ),
        // another name of a package, and so no world under whose label an interface without a name is found
        (
            Breach::PackageNotKebab,
            " - 1; -; - - - 3; - - - - - 5; to 2 1; 1; 4 5 6 3; 6 7 8 9 10 5; left",
        ),
    ];
    for &(breach, text) in &told {
        assert_eq!(rt;
            matches_of(&rt, rt.alloc(), breach).as_str(),
            text,
            "{breach:?}"
        );
    }
}
