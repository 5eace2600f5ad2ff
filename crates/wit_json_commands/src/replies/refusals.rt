//! Refusals as they are told: as data, and as a text.
ghost use Rattle.std.specs.Prelude.{◌≡◌, IfOk, filter_map, map};
ghost use Rattle.wit_json_commands.specs.FilePlaces.{file_place};
ghost use Rattle.wit_json_commands.specs.RefusalJson.{json_of_way_step};
ghost use Rattle.wit_json_commands.specs.Refusals.{error_spans, refused, way_step};

use super::answers::{Answer, Refusal};
use super::file_places::{FilePlace, file_place};
use super::mismatches::{merge_place, upgrade_place};
use super::nearest::nearest_known;
use super::places::package_span;
use super::rendered::text_of_error;
use std::alloc::{AllocError, Global};
use wit_data::{Items, SourceMap, Span, Text, TryClone};
use wit_graph_data::{Cause, Graph, ResolveError, ResolveErrorKind};
use wit_json::{JsonText, WriteJson};
use wit_ways::Arrow;

/// A step of the way of a refusal: what leads to what, and where that stands, where a line of a file says it.
#[derive(Drop)]
pub struct WayStep {
    pub from: Text,
    pub to: Text,
    pub place: Option<FilePlace>,
}

/// The refusal of what was asked of a graph: the error, its places and its way in these files, and the text that shows
/// them with what was asked and which document says more of the number. The only error is want of memory.
pub fn refused(
    alloc: Global,
    graph: &Graph,
    files: &SourceMap,
    asked: &str,
    way: &[Arrow],
    error: ResolveError,
) -> Result<Answer, AllocError>
    ensures { IfOk result (λ answer. answer ≡ refused graph.now files.now asked.now way.now error) }
{
    let spans = error_spans(alloc, graph, error.kind())?;
    let rendered = text_of_error(alloc, files, &spans, asked, way, &error)?;
    let places = file_places(alloc, files, &spans)?;
    let way = way_steps(alloc, files, way)?;
    let nearest = match nearest_known(alloc, error.kind())? {
        Some(name) => Some(name.try_clone()?),
        None => None,
    };
    Ok(Answer::Refused(Refusal {
        error,
        places,
        way,
        nearest,
        rendered,
    }))
}

/// Where an error is; of a package that is defined twice both places, the other one by the graph where the error has none.
/// What is refused since things of the graph differ (24, 25) is where these stand.
fn error_spans(
    alloc: Global,
    graph: &Graph,
    kind: &ResolveErrorKind,
) -> Result<Vec<Span>, AllocError>
    ensures { IfOk result (λ spans. spans.items ≡ error_spans graph.now kind.now) }
{
    match kind {
        ResolveErrorKind::DuplicatePackage { name, span1, span2 } => {
            let other = if span2.is_known() {
                *span2
            } else {
                package_span(graph, name)
            };
            Ok(vec![in alloc; *span1, other]?)
        }
        ResolveErrorKind::Semantic {
            message,
            cause: Cause::MergeMismatch,
            ..
        } => Ok(vec![in alloc; merge_place(alloc, graph, message.as_str())?]?),
        ResolveErrorKind::Semantic {
            message,
            cause: Cause::UpgradeMismatch,
            ..
        } => {
            let older = upgrade_place(alloc, graph, false, message.as_str())?;
            let newer = upgrade_place(alloc, graph, true, message.as_str())?;
            Ok(vec![in alloc; older, newer]?)
        }
        kind => Ok(vec![in alloc; kind.span()]?),
    }
}

/// The places at which spans begin, without those that are in no file.
fn file_places(
    alloc: Global,
    files: &SourceMap,
    spans: &[Span],
) -> Result<Items<FilePlace>, AllocError>
    ensures { IfOk result (λ places. places ≡ filter_map (file_place files.now.files) spans.now) }
{
    let mut places = Items::new(alloc);
    for span in spans {
        if let Some(place) = file_place(alloc, files, *span)? {
            places.push(place)?;
        }
    }
    Ok(places)
}

/// The steps of a way with their places.
fn way_steps(alloc: Global, files: &SourceMap, way: &[Arrow]) -> Result<Items<WayStep>, AllocError>
    ensures { IfOk result (λ steps. steps ≡ map (way_step files.now.files) way.now) }
{
    let mut steps = Items::new(alloc);
    for arrow in way {
        let step = way_step(alloc, files, arrow)?;
        steps.push(step)?;
    }
    Ok(steps)
}

/// A step of a way with its place.
fn way_step(alloc: Global, files: &SourceMap, arrow: &Arrow) -> Result<WayStep, AllocError>
    ensures { IfOk result (λ step. step ≡ way_step files.now.files arrow.now) }
{
    let place = file_place(alloc, files, arrow.span)?;
    let from = arrow.from.try_clone()?;
    let to = arrow.to.try_clone()?;
    Ok(WayStep { from, to, place })
}

impl WriteJson for WayStep {
    ghost json = { json_of_way_step };

    fn write_json(&self, out: &mut JsonText) -> Result<(), AllocError> {
        out.begin_object()?;
        out.member("from", &self.from)?;
        out.member("to", &self.to)?;
        out.optional("place", &self.place)?;
        out.end_object()
    }
}
