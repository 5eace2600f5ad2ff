//! All matches of two graphs.
ghost use Rattle.std.specs.Prelude.{IfOk};
ghost use Rattle.wit_elaboration.specs.Valid.{IsValid};
ghost use Rattle.wit_merge_match.specs.steps.Matched.{AreMatches};

use crate::tables::{named_interfaces, package_matches, world_matches};
use crate::types::type_matches;
use crate::world_labels::LabelNotes;
use std::alloc::{AllocError, Global};
use wit_data::{InterfaceId, Items, PackageId, TypeId, WorldId};
use wit_graph_data::Graph;

/// Of each thing of another graph, by its id there, the one of a graph with which it is matched: packages of one
/// name, worlds and interfaces of one name in matched packages, interfaces without a name at one label of matched
/// worlds, and types of one name and of matched owners.
#[derive(Drop)]
pub struct Matches {
    pub packages: Items<Option<PackageId>>,
    pub worlds: Items<Option<WorldId>>,
    pub interfaces: Items<Option<InterfaceId>>,
    pub types: Items<Option<TypeId>>,
}

/// Finds of each thing of the other graph the one of a valid graph with which it is matched. Each name is looked up
/// once. The only error is want of memory.
///
/// Source: `MergeMap` of wit-parser 0.263.0.
pub fn find_matches(alloc: Global, graph: &Graph, other: &Graph) -> Result<Matches, AllocError>
    requires { IsValid graph.now }
    ensures { IfOk result (AreMatches graph.now other.now) }
{
    let packages = package_matches(alloc, graph, other)?;
    let worlds = world_matches(alloc, graph, other, &packages)?;
    let mut interfaces = named_interfaces(alloc, graph, other, &packages)?;
    let spotting = LabelNotes {
        graph,
        other,
        worlds: &worlds,
    };
    spotting.add_unnamed(&mut interfaces);
    let types = type_matches(alloc, graph, other, &worlds, &interfaces)?;
    Ok(Matches {
        packages,
        worlds,
        interfaces,
        types,
    })
}
