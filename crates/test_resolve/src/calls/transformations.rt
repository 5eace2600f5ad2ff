//! What the filter of a turn is asked. The package is read from a script.
ghost use Rattle.std.specs.Prelude.{◌<◌, length};

use crate::calls::fixtures::{assert_valid, resolve_of};
use std::alloc::Global;
use std::cell::Cell;
use std::process::Abort;
use wit_data::{WorldId, WorldItem, WorldKey};
use wit_resolve_graph::Resolve;

/// Interface `c` uses `b` and `a`, `b` uses `a`; world `w` imports them.
const SCRIPT: &str = "package foo:bar\n\
    interface a\n\
    type t u32\n\
    interface b\n\
    use a t\n\
    interface c\n\
    use a t\n\
    use b t t2\n\
    world w\n\
    import c\n\
    push\n";

/// World `w`.
fn world(rt: &impl Abort, resolve: &Resolve) -> WorldId
    ensures { result < length resolve.now.graph.worlds }
{
    assert!(rt; !resolve.worlds().is_empty());
    WorldId::from_index(0)
}

/// The id of the interface that a key names, and one; 0 for a label.
fn digit(key: &WorldKey) -> usize {
    match key {
        WorldKey::Interface(id) => id.index().wrapping_add(1),
        WorldKey::Name(_) => 0,
    }
}

/// A digit for each question of a turn that exports interface `c`.
fn asked(rt: &impl Abort, alloc: Global) -> usize {
    let mut resolve = resolve_of(rt, alloc, SCRIPT);
    let id = world(rt, &resolve);
    let asked: Cell<usize> = Cell::new(0);
    let filter = |key: &WorldKey, _item: &WorldItem| {
        asked.set(asked.get().wrapping_mul(10).wrapping_add(digit(key)));
        digit(key) == 3
    };
    resolve
        .exportize(alloc, id, None, Some(filter))
        .expect(rt, "a turn");
    assert_valid(rt, alloc, &resolve);
    asked.get()
}

#[test]
fn the_filter_is_asked_once_for_each_import(rt: HostRuntime) {
    assert_eq!(rt; asked(&rt, rt.alloc()), 123);
}
