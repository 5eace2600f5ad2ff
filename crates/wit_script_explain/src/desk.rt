//! The graphs of a script, each with the lines of the script that its files have.
ghost use Rattle.std.specs.Prelude.{◌≡◌, ◌-◌, ◌++◌, OnOk, drop, length, take};
ghost use Rattle.wit_script_explain.specs.Desk.{with_file_starts};
ghost use Rattle.wit_script_explain.specs.steps.Parts.{coming_packages};

use crate::lines::{CommandPlace, ScriptLines};
use std::alloc::{AllocError, Global};
use wit_data::Items;
use wit_resolve_graph::Resolve;

/// A graph, and where in the script it comes from. A place counts the lines of the script that go into files, from 0.
#[derive(Drop)]
pub struct TrackedGraph {
    pub resolve: Resolve,
    /// For each file of the graph's sources the place of its first line.
    pub file_starts: Items<usize>,
    /// The places of the first lines of the packages that commands have brought, those of refused ones left out.
    pub package_starts: Items<usize>,
}

/// The graph of a script, and the second one between `other` and `merge`.
#[derive(Drop)]
pub struct Desk {
    pub first: TrackedGraph,
    pub second: Option<TrackedGraph>,
}

impl TrackedGraph {
    ghost use Rattle.wit_script_explain.specs.Desk.{new_tracked};

    /// An empty graph.
    pub fn new(alloc: Global) -> TrackedGraph
        ensures { result ≡ new_tracked }
    {
        TrackedGraph {
            resolve: Resolve::new(alloc),
            file_starts: Items::new(alloc),
            package_starts: Items::new(alloc),
        }
    }

    /// Notes the files that the graph's sources have got, which are the first of those that were to come, and the packages
    /// that it has got with them.
    pub fn track(&mut self, coming: &[usize], brought: &[usize]) -> Result<(), AllocError>
        ensures { OnOk result (self.new ≡ with_file_starts self.old coming.now brought.now) }
    {
        let files = self.resolve.source_map().len();
        let more = files.saturating_sub(self.file_starts.len());
        extend(&mut self.file_starts, first_of(coming, more))?;
        extend(&mut self.package_starts, first_of(brought, more))
    }
}

/// The first so many.
fn first_of(items: &[usize], count: usize) -> &[usize]
    ensures { result.now ≡ take count items.now }
{
    match items.get(..count) {
        Some(first) => first,
        None => items,
    }
}

/// Adds some at the end.
fn extend(items: &mut Items<usize>, more: &[usize]) -> Result<(), AllocError>
    ensures { OnOk result (items.new ≡ items.old ++ more.now) }
{
    for item in more {
        items.push(*item)?;
    }
    Ok(())
}

impl Desk {
    ghost use Rattle.wit_script_explain.specs.Desk.{new_desk, working};

    /// An empty graph, and no other.
    pub fn new(alloc: Global) -> Desk
        ensures { result ≡ new_desk }
    {
        Desk {
            first: TrackedGraph::new(alloc),
            second: None,
        }
    }

    /// The graph on which commands work: the second, where there is one.
    pub fn working(&self) -> &TrackedGraph
        ensures { result.now ≡ working self.now }
    {
        match &self.second {
            Some(second) => second,
            None => &self.first,
        }
    }
}

/// Of the packages that begin after a command, each the place of its first line.
pub fn coming_packages<'a>(script: &'a ScriptLines, place: &CommandPlace) -> &'a [usize]
    ensures { result.now ≡ coming_packages script.now place.now }
{
    match script.packages.as_slice().get(place.packages..) {
        Some(coming) => coming,
        None => &[],
    }
}
