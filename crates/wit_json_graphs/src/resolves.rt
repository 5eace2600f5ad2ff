//! The parts of a `Resolve`.
ghost use Rattle.std.specs.Prelude.{[], false, codes};
ghost use Rattle.wit_names.specs.declared.track.TrackRule.TheVariants.{Published};
ghost use Rattle.wit_json_reading.specs.Features.{read_features, read_rule};
ghost use Rattle.wit_json_reading.specs.Groups.{read_sources};
ghost use Rattle.wit_json_graphs.specs.Details.{graph_with};
ghost use Rattle.json.specs.Value.{value_view};
ghost use Rattle.wit_json_reading.specs.Reading.{Reads, read_or};
ghost use Rattle.wit_json_graphs.specs.Resolves.{read_resolve};

use crate::details::member_details;
use json::Value;
use std::alloc::Global;
use wit_data::{SourceMap, TrackRule};
use wit_graph_data::{Features, Graph};
use wit_json_reading::{ReadError, ReadJson, only, optional, required};

/// What a `Resolve` is made of.
#[derive(Drop)]
pub struct ResolveParts {
    pub graph: Graph,
    pub features: Features,
    pub source_map: SourceMap,
    pub track_rule: TrackRule,
}

/// A graph with its details, where the value has some.
#[tactic(auto, unfolding(wit_json_reading::specs::Reading::read_or))]
fn with_details(alloc: Global, value: &Value<'_>, mut graph: Graph) -> Result<Graph, ReadError>
    ensures { Reads result
        (read_or (graph_with graph) graph (codes "details") (value_view value.now)) }
{
    if let Some(details) = value.get("details") {
        member_details(alloc, details, "details", &mut graph)?;
    }
    Ok(graph)
}

/// The features that are on: none where they are left out.
#[tactic(auto, unfolding(wit_json_reading::specs::Reading::read_or))]
fn features(alloc: Global, value: &Value<'_>) -> Result<Features, ReadError>
    ensures { Reads result
        (read_or read_features (record { names = []; all = false }) (codes "features")
        (value_view value.now)) }
{
    match optional(alloc, value, "features")? {
        Some(features) => Ok(features),
        None => Ok(Features::new(alloc)),
    }
}

/// The files: none where they are left out.
#[tactic(auto, unfolding(wit_json_reading::specs::Reading::read_or))]
fn sources(alloc: Global, value: &Value<'_>) -> Result<SourceMap, ReadError>
    ensures { Reads result
        (read_or read_sources (record { files = []; end = 0 }) (codes "sources")
        (value_view value.now)) }
{
    match optional(alloc, value, "sources")? {
        Some(sources) => Ok(sources),
        None => Ok(SourceMap::new(alloc)),
    }
}

/// The rule of tracks: the published one where it is left out.
#[tactic(auto, unfolding(wit_json_reading::specs::Reading::read_or))]
fn rule(alloc: Global, value: &Value<'_>) -> Result<TrackRule, ReadError>
    ensures { Reads result
        (read_or read_rule Published (codes "track-rule") (value_view value.now)) }
{
    match optional(alloc, value, "track-rule")? {
        Some(rule) => Ok(rule),
        None => Ok(TrackRule::Published),
    }
}

impl ReadJson for ResolveParts {
    ghost reading = { read_resolve };

    #[tactic(auto, unfolding(crate::specs::Resolves::read_resolve))]
    fn read_json(alloc: Global, value: &Value<'_>) -> Result<ResolveParts, ReadError> {
        only(
            alloc,
            value,
            &["graph", "details", "features", "track-rule", "sources"],
        )?;
        let graph = with_details(alloc, value, required(alloc, value, "graph")?)?;
        let features = features(alloc, value)?;
        let track_rule = rule(alloc, value)?;
        let source_map = sources(alloc, value)?;
        Ok(ResolveParts {
            graph,
            features,
            source_map,
            track_rule,
        })
    }
}
