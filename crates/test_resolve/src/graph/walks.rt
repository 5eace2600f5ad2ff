//! Walks, cycles and uses of small rows, worked by hand.
use crate::fixtures::assert_text;
use std::alloc::Global;
use std::process::Abort;
use wit_digraph::{CycleUse, Listing, find_cycle, is_acyclic, post_order_of_roots};
use wit_values::Items;

/// Four rows.
fn rows(rt: &impl Abort, alloc: Global, lists: [&[usize]; 4]) -> Vec<Items<usize>> {
    let mut rows = Vec::new(alloc);
    for list in lists {
        let row = Vec::from_slice(alloc, list).expect(rt, "memory");
        rows.push(Items::from_vec(row)).expect(rt, "memory");
    }
    rows
}

/// The order of walks from two roots, and then that of one walk.
fn orders(rt: &impl Abort, alloc: Global) -> String {
    let uses = rows(rt, alloc, [&[], &[0], &[0, 1], &[1, 0, 1]]);
    assert!(rt; is_acyclic(alloc, &uses).expect(rt, "memory"));
    assert_eq!(rt; uses.len(), 4);
    let both = post_order_of_roots(alloc, &uses, &[2, 3]).expect(rt, "memory");
    let mut listing = Listing::new(alloc, uses.len()).expect(rt, "memory");
    listing
        .list_post_order(alloc, &uses, 3)
        .expect(rt, "memory");
    let one = listing.order();
    format!(in alloc; "{both:?} {one:?}").expect(rt, "memory")
}

#[test]
fn walks_list_uses_before_users(rt: HostRuntime) {
    assert_text(&rt, orders(&rt, rt.alloc()), "[0, 1, 2, 3] [0, 1, 3]");
}

/// A use on a cycle of these rows, where they have one.
fn cycle(rt: &impl Abort, alloc: Global, lists: [&[usize]; 4]) -> Option<CycleUse> {
    let uses = rows(rt, alloc, lists);
    assert!(rt; wit_digraph::is_in_range(&uses));
    find_cycle(alloc, &uses).expect(rt, "memory")
}

#[test]
fn cycles_are_told_by_a_use_on_them(rt: HostRuntime) {
    let found = cycle(&rt, rt.alloc(), [&[2], &[], &[1, 0], &[0]]);
    assert_eq!(rt; found, Some(CycleUse { user: 2, used: 0 }));
    let own = cycle(&rt, rt.alloc(), [&[], &[1], &[], &[]]);
    assert_eq!(rt; own, Some(CycleUse { user: 1, used: 1 }));
    let none = cycle(&rt, rt.alloc(), [&[1, 2], &[2], &[3], &[]]);
    assert_eq!(rt; none, None);
}
