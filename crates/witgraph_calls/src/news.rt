//! What a graph that stays has told of itself, and what is new of it.
ghost use Rattle.std.specs.Prelude.{◌≡◌, ◌⊎◌, [], fold, string_bytes};
ghost use Rattle.witgraph_calls.specs.News.{left_after, left_after_change, text_of_news, told_after, told_all, told_before, told_files, told_nothing};

use crate::status::{NO_MEMORY, UNDERSTOOD};
use std::alloc::Global;
use wit_json::{Told, news_to_json};
use wit_json_commands::{Change, Document, Order, Request};
use wit_json_graphs::ResolveParts;
use wit_resolve_graph::{Items, Resolve};

/// Nothing was told.
pub const NOTHING: Told = Told {
    worlds: 0,
    interfaces: 0,
    types: 0,
    packages: 0,
    files: 0,
};

/// All of a graph was told, and all of its files.
pub fn all_of(resolve: &Resolve) -> Told
    ensures { result ≡ told_all resolve.now }
{
    let graph = resolve.graph();
    Told {
        worlds: graph.worlds.len(),
        interfaces: graph.interfaces.len(),
        types: graph.types.len(),
        packages: graph.packages.len(),
        files: resolve.source_map().len(),
    }
}

/// What is left as it was told if any thing of the graph may have changed: the files.
fn files_of(told: Told) -> Told
    ensures { result ≡ told_files told }
{
    Told {
        files: told.files,
        ..NOTHING
    }
}

/// What a change leaves as it was told.
fn left_after_change(told: Told, change: &Change) -> Told
    ensures { result ≡ left_after_change change.now told }
{
    match change {
        Change::Importize { .. } | Change::Exportize { .. } => Told {
            worlds: 0,
            packages: 0,
            ..told
        },
        Change::Semver { .. } => files_of(told),
        _ => told,
    }
}

/// What a command leaves as it was told.
fn left_after(told: Told, order: &Order) -> Told
    ensures { result ≡ left_after order.now told }
{
    match order {
        Order::Request(Request::Change(change)) => left_after_change(told, change),
        Order::Request(Request::Ask(_)) => told,
        Order::Merge(_) => files_of(told),
    }
}

/// What commands leave, one after another.
fn left_after_all(told: Told, orders: &Items<Order>) -> Told
    ensures { result ≡ fold (λ left it. left_after it left) told orders.now }
{
    let mut left = told;
    for order in orders.as_slice() {
        left = left_after(left, order);
    }
    left
}

/// What was told of the graph with which the commands of a document begin.
fn before(told: Told, parts: &Option<ResolveParts>) -> Told
    ensures { result ≡ told_before parts.now told }
{
    match parts {
        Some(_) => NOTHING,
        None => told,
    }
}

/// What a document leaves as it was told.
pub fn told_after(told: Told, document: &Document) -> Told
    ensures { result ≡ told_after document.now told }
{
    left_after_all(before(told, &document.resolve), &document.commands)
}

/// The status and the text of what is new of a graph with what stands beside it.
pub fn news_text(alloc: Global, told: Told, resolve: &Resolve) -> (u32, String)
    ensures status { (result.0 ≡ UNDERSTOOD) ⊎ (result.0 ≡ NO_MEMORY) }
    ensures written { result.0 ≡ UNDERSTOOD
        → string_bytes result.1 ≡ text_of_news told resolve.now }
    ensures none { result.0 ≡ NO_MEMORY → string_bytes result.1 ≡ [] }
{
    let (graph, features) = (resolve.graph(), resolve.features());
    let (rule, files) = (resolve.track_rule(), resolve.source_map());
    match news_to_json(alloc, told, graph, features, rule, files) {
        Ok(text) => (UNDERSTOOD, text),
        Err(_) => (NO_MEMORY, String::new(alloc)),
    }
}
