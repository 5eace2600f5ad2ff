//! What there is before and after a call: the number of a graph, the files, the features.
use crate::marks::tell;
use crate::sums::graph_sum;
use std::fmt;
use wit_graph::Graph;
use wit_resolve_graph::{Items, Resolve, ResolveResult, SourceMap, UnresolvedPackageGroup};

// ---- of a `Resolve`

/// Before calls that are each made on a copy of a `Resolve`.
pub fn base(rt: &impl Print, resolve: &Resolve) -> Option<()> {
    tell_resolve(rt, "base", resolve)
}

/// After a call that changes a `Resolve`.
pub fn tell_state<T: fmt::Debug + Drop>(
    rt: &impl Print,
    answer: ResolveResult<T>,
    resolve: &Resolve,
) -> Option<()> {
    tell(rt, answer)?;
    state(rt, resolve)
}

pub fn state(rt: &impl Print, resolve: &Resolve) -> Option<()> {
    tell_resolve(rt, "state", resolve)
}

fn tell_resolve(rt: &impl Print, word: &str, resolve: &Resolve) -> Option<()> {
    let graph = graph_sum(resolve.graph())?;
    let files = resolve.source_map().len();
    let end = resolve.source_map().end();
    let rule = resolve.track_rule();
    let features = resolve.features();
    println!(rt; "{word} {graph} files {files} end {end} {rule:?} {features:?}").ok()
}

/// Files that the next call gets, which may stand at the end after a refusal.
pub fn incoming(rt: &impl Print, map: &SourceMap) -> Option<()> {
    let files = map.len();
    let end = map.end();
    println!(rt; "incoming {files} end {end}").ok()
}

/// The files of groups, as `incoming`.
pub fn incoming_groups(
    rt: &impl Print,
    main: &UnresolvedPackageGroup,
    deps: &Items<UnresolvedPackageGroup>,
) -> Option<()> {
    incoming(rt, &main.source_map)?;
    for dep in deps.iter() {
        incoming(rt, &dep.source_map)?;
    }
    Some(())
}

// ---- of a layer below

/// After a call that changes a graph.
pub fn tell_graph<T: fmt::Debug + Drop>(
    rt: &impl Print,
    answer: ResolveResult<T>,
    graph: &Graph,
) -> Option<()> {
    tell(rt, answer)?;
    graph_state(rt, graph)
}

pub fn graph_state(rt: &impl Print, graph: &Graph) -> Option<()> {
    let graph = graph_sum(graph)?;
    println!(rt; "state {graph}").ok()
}

/// The files of a map that is changed.
pub fn map_state(rt: &impl Print, word: &str, map: &SourceMap) -> Option<()> {
    let files = map.len();
    let end = map.end();
    println!(rt; "{word} map files {files} end {end}").ok()
}
