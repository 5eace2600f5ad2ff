//! Calls beside any `Resolve`, each once with ample memory: packages are added to a bare graph, and labels are renamed.
use crate::fixtures::{assert_text, text};
use crate::packages::parts::package;
use std::alloc::Global;
use std::fmt::Write;
use std::process::Abort;
use wit_data::{IncludeName, Items};
use wit_graph_data::{Features, Graph};
use wit_labels::rename;
use wit_link::{append, append_all};
use wit_resolve_graph::Shape;
use wit_validity::is_valid;

/// The id of a package that is added to an empty graph, those of two that follow, and how many there are then.
fn places(rt: &impl Abort, alloc: Global) -> String {
    let (mut graph, features) = (Graph::new(alloc), Features::new(alloc));
    assert!(rt; is_valid(alloc, &graph).expect(rt, "memory"));
    let first = package(rt, alloc, "a", "");
    assert!(rt; first.is_shaped(alloc).expect(rt, "memory"));
    let first = append(alloc, &mut graph, &features, first, 0);
    let first = first.expect(rt, "memory").index();
    let (second, third) = (package(rt, alloc, "b", ""), package(rt, alloc, "c", ""));
    assert!(rt; second.is_shaped(alloc).expect(rt, "memory"));
    assert!(rt; third.is_shaped(alloc).expect(rt, "memory"));
    let mut others = Items::new(alloc);
    others.push((second, 0)).expect(rt, "memory");
    others.push((third, 7)).expect(rt, "memory");
    let ids = append_all(alloc, &mut graph, &features, others).expect(rt, "memory");
    let mut out = format!(in alloc; "{first}").expect(rt, "memory");
    for id in ids.iter() {
        write!(out, " {}", id.index()).expect(rt, "memory");
    }
    write!(out, " of {}", graph.packages.len()).expect(rt, "memory");
    out
}

#[test]
fn a_bare_graph_takes_packages(rt: HostRuntime) {
    assert_text(&rt, places(&rt, rt.alloc()), "0 1 2 of 3");
}

/// What labels are after `k` was renamed to `key`, with a dash for those that it isn't of.
fn labels(rt: &impl Abort, alloc: Global) -> String {
    let name = IncludeName {
        name: text(rt, alloc, "k"),
        as_: text(rt, alloc, "key"),
    };
    let mut out = String::new(alloc);
    for label in ["k", "[set]k", "[method]k.go", "kk", "[method]go.k"] {
        let made = rename(alloc, label, &name).expect(rt, "memory");
        match made {
            Some(made) => write!(out, " {made}").expect(rt, "memory"),
            None => write!(out, " -").expect(rt, "memory"),
        }
    }
    out
}

#[test]
fn a_label_is_renamed_by_its_word(rt: HostRuntime) {
    assert_text(
        &rt,
        labels(&rt, rt.alloc()),
        " key [set]key [method]key.go - -",
    );
}
