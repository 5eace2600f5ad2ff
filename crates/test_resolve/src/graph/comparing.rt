//! What holds against merging another graph into a valid one: each of the three reasons that read the two graphs and
//! what is matched of them alone.
use crate::fixtures::{
    entries, function, function_entry, interface_item, label, names, string, text, type_at,
};
use crate::graph::validity::{Breach, add_entry, graph};
use std::alloc::Global;
use std::process::Abort;
use std::rt::HostRuntime;
use wit_data::{FunctionKind, Span, Stability, Table, Type_, TypeDefKind, WorldItem, WorldKey};
use wit_graph_data::Graph;
use wit_merge_match::{find_matches, find_mismatch, find_stability_mismatch, spans_fit};
use wit_validity::is_valid;

/// What is changed in the other graph.
#[derive(Clone, Copy, Debug)]
enum Change {
    Nothing,
    Kind,
    Parameter,
    FurtherImport,
    FurtherExport,
    Export,
    ExportOfInterface,
    TypeOfInterface,
    TypeOfUnnamed,
    TypeOfWorld,
}

/// What differs of the graph with this change and the valid one, `-` where nothing does.
fn mismatch_of(rt: &impl Abort, alloc: Global, change: Change) -> String {
    let ours = graph(rt, alloc, Breach::Nothing);
    let other = changed(rt, alloc, change);
    mismatch(rt, alloc, &ours, &other)
}

/// What differs of two graphs, `-` where nothing does; an empty text where one of them isn't valid.
pub(crate) fn mismatch(rt: &impl Abort, alloc: Global, ours: &Graph, other: &Graph) -> String {
    if !is_valid(alloc, ours).expect(rt, "memory") {
        return String::new(alloc);
    }
    if !is_valid(alloc, other).expect(rt, "memory") {
        return String::new(alloc);
    }
    let found = find_matches(alloc, ours, other).expect(rt, "memory");
    match find_mismatch(alloc, ours, other, &found).expect(rt, "memory") {
        Some(message) => message,
        None => string(rt, alloc, "-"),
    }
}

fn changed(rt: &impl Abort, alloc: Global, change: Change) -> Graph {
    match change {
        Change::Nothing => graph(rt, alloc, Breach::Nothing),
        Change::FurtherImport => importing(rt, alloc, "more"),
        Change::Kind => with_function(rt, alloc, FunctionKind::AsyncFreestanding, Type_::U8),
        Change::Parameter => with_function(rt, alloc, FunctionKind::Freestanding, Type_::U32),
        Change::FurtherExport => exporting(rt, alloc, "h", Some("more")),
        Change::Export => exporting(rt, alloc, "k", None),
        Change::ExportOfInterface => exporting_interface(rt, alloc, "h"),
        Change::TypeOfInterface => with_kind(rt, alloc, 0, TypeDefKind::Type_(Type_::U8)),
        Change::TypeOfUnnamed => with_kind(rt, alloc, 3, TypeDefKind::List(Type_::U32)),
        Change::TypeOfWorld => with_kind(rt, alloc, 4, TypeDefKind::Type_(type_at(0))),
    }
}

/// The graph where function `f` of the first interface is of this kind and type.
fn with_function(rt: &impl Abort, alloc: Global, kind: FunctionKind, ty: Type_) -> Graph {
    let f = function(rt, alloc, "f", kind, ty);
    let functions = names(rt, alloc, [(string(rt, alloc, "f"), f)]);
    let mut other = graph(rt, alloc, Breach::Nothing);
    if other.interfaces.len() > 0 {
        other.interfaces.at_mut(0).functions = functions;
    }
    other
}

/// The graph where a type is of another kind.
fn with_kind(rt: &impl Abort, alloc: Global, index: usize, kind: TypeDefKind) -> Graph {
    let mut other = graph(rt, alloc, Breach::Nothing);
    if index < other.types.len() {
        other.types.at_mut(index).kind = kind;
    }
    other
}

/// A function of a number under its label.
fn of_number(rt: &impl Abort, alloc: Global, name: &str) -> (WorldKey, WorldItem) {
    let kind = FunctionKind::Freestanding;
    function_entry(rt, alloc, name, function(rt, alloc, name, kind, Type_::U32))
}

/// The graph whose world imports a further function.
fn importing(rt: &impl Abort, alloc: Global, name: &str) -> Graph {
    let (key, item) = of_number(rt, alloc, name);
    let mut other = graph(rt, alloc, Breach::Nothing);
    if other.worlds.len() > 0 {
        add_entry(rt, &mut other.worlds.at_mut(0).imports, key, item);
    }
    other
}

/// The graph whose world exports one function or two.
fn exporting(rt: &impl Abort, alloc: Global, name: &str, more: Option<&str>) -> Graph {
    let mut exports = entries(rt, alloc, [of_number(rt, alloc, name)]);
    if let Some(more) = more {
        let (key, item) = of_number(rt, alloc, more);
        add_entry(rt, &mut exports, key, item);
    }
    with_exports(rt, alloc, exports)
}

/// The graph whose world exports interface `a` under a label.
fn exporting_interface(rt: &impl Abort, alloc: Global, name: &str) -> Graph {
    let exports = entries(rt, alloc, [(label(rt, alloc, name), interface_item(0))]);
    with_exports(rt, alloc, exports)
}

fn with_exports(rt: &impl Abort, alloc: Global, exports: Table<WorldKey, WorldItem>) -> Graph {
    let mut other = graph(rt, alloc, Breach::Nothing);
    if other.worlds.len() > 0 {
        other.worlds.at_mut(0).exports = exports;
    }
    other
}

#[test]
fn what_is_matched_has_to_agree(rt: HostRuntime) {
    let told = [
        (Change::Nothing, "-"),
        (
            Change::Kind,
            "failed to merge package `foo:bar` into existing copy: failed to merge interface `a`: mismatch in function `f`: different function kind types",
        ),
        (
            Change::Parameter,
            "failed to merge package `foo:bar` into existing copy: failed to merge interface `a`: mismatch in function `f`: different function parameter types for `p`: different kinds of types",
        ),
        (
            Change::FurtherImport,
            "failed to merge package `foo:bar` into existing copy: failed to merge world `w`: world contains different number of imports than expected",
        ),
        (
            Change::FurtherExport,
            "failed to merge package `foo:bar` into existing copy: failed to merge world `w`: world contains different number of exports than expected",
        ),
        (
            Change::Export,
            "failed to merge package `foo:bar` into existing copy: failed to merge world `w`: export `k` not found in target world",
        ),
        (
            Change::ExportOfInterface,
            "failed to merge package `foo:bar` into existing copy: failed to merge world `w`: export `h` didn't match target world: world items do not have the same type",
        ),
        (
            Change::TypeOfInterface,
            "failed to merge package `foo:bar` into existing copy: failed to merge interface `a`: mismatch in type `t`: at alias: different kinds of types",
        ),
        (
            Change::TypeOfUnnamed,
            "failed to merge package `foo:bar` into existing copy: failed to merge world `w`: import `in-place` didn't match target world: mismatch in type `k`: different kinds of types",
        ),
        (
            Change::TypeOfWorld,
            "failed to merge package `foo:bar` into existing copy: failed to merge world `w`: import `y` didn't match target world: mismatch in type `y`: at alias: different types",
        ),
    ];
    for &(change, text) in &told {
        assert_eq!(rt;
            mismatch_of(&rt, rt.alloc(), change).as_str(),
            text,
            "{change:?}"
        );
    }
}

/// The gate of a feature, or none.
fn gate(rt: &impl Abort, alloc: Global, feature: &str) -> Stability {
    match feature {
        "" => Stability::Unknown,
        _ => Stability::Unstable {
            feature: text(rt, alloc, feature),
            deprecated: None,
        },
    }
}

/// The features of the two gates that can't be joined, where a type of the other graph and the one with which it is
/// matched have these; `-` where they can.
fn gates_told(rt: &impl Abort, alloc: Global, from: &str, into: &str) -> String {
    let ours = gated(rt, alloc, into);
    let other = gated(rt, alloc, from);
    gates(rt, alloc, &ours, &other)
}

/// The graph with the gate of a feature at its first type.
fn gated(rt: &impl Abort, alloc: Global, feature: &str) -> Graph {
    let mut gated = graph(rt, alloc, Breach::Nothing);
    let stability = gate(rt, alloc, feature);
    if gated.types.len() > 0 {
        gated.types.at_mut(0).stability = stability;
    }
    gated
}

fn gates(rt: &impl Abort, alloc: Global, ours: &Graph, other: &Graph) -> String {
    if !is_valid(alloc, ours).expect(rt, "memory") {
        return String::new(alloc);
    }
    let found = find_matches(alloc, ours, other).expect(rt, "memory");
    match find_stability_mismatch(ours, other, &found).expect(rt, "memory") {
        Some(pair) => features(rt, alloc, &pair.from, &pair.into),
        None => string(rt, alloc, "-"),
    }
}

fn features(rt: &impl Abort, alloc: Global, from: &Stability, into: &Stability) -> String {
    let (from, into) = (feature_of(from), feature_of(into));
    format!(in alloc; "{from} {into}").expect(rt, "memory")
}

fn feature_of(stability: &Stability) -> &str {
    match stability {
        Stability::Unstable { feature, .. } => feature.as_str(),
        _ => "",
    }
}

#[test]
fn gates_are_joined(rt: HostRuntime) {
    let told = [
        ("", "", "-"),
        ("x", "", "-"),
        ("", "y", "-"),
        ("x", "x", "-"),
        ("x", "y", "x y"),
    ];
    for &(from, into, text) in &told {
        assert_eq!(rt; gates_told(&rt, rt.alloc(), from, into).as_str(), text);
    }
}

/// Whether the spans fit of a graph whose last interface ends there.
fn fits(rt: &impl Abort, alloc: Global, end: u32, offset: u32) -> bool {
    let mut other = graph(rt, alloc, Breach::Nothing);
    if other.interfaces.len() > 3 {
        other.interfaces.at_mut(3).span = Span::new(0, end);
    }
    spans_fit(&other, offset)
}

#[test]
fn spans_stay_within_the_last_position(rt: HostRuntime) {
    assert_eq!(rt; fits(&rt, rt.alloc(), 5, u32::MAX - 5), true);
    assert_eq!(rt; fits(&rt, rt.alloc(), 6, u32::MAX - 5), false);
}
