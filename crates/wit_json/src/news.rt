//! What is new of a graph with what stands beside it.
ghost use Rattle.std.specs.Prelude.{◌≡◌, ◌++◌, IfOk, OnOk, drop, codes, string_bytes};
ghost use Rattle.json.specs.Tree.{json_tokens};
ghost use Rattle.wit_sources.specs.SourceMap.{files_of};
ghost use Rattle.wit_json.specs.Details.{graph_details};
ghost use Rattle.wit_json.specs.Graph.{compact, json_of_graph};
ghost use Rattle.wit_json.specs.News.{graph_behind, json_of_news, json_of_told};
ghost use Rattle.wit_json.specs.Values.{list_of, member};
ghost use Rattle.wit_json.specs.Whole.{json_of_file};
ghost use Rattle.wit_json.specs.steps.Members.{Adds};

use crate::details::WriteDetails;
use crate::writer::{JsonText, WriteJson};
use std::alloc::{AllocError, Global};
use wit_data::{Items, SourceMap, TrackRule};
use wit_graph_data::{Features, Graph};
use wit_sources::SourceFiles;

/// How many things of each list someone was told: the first ones.
#[derive(Clone, Copy, Debug, PartialEq, Eq)]
pub struct Told {
    pub worlds: usize,
    pub interfaces: usize,
    pub types: usize,
    pub packages: usize,
    pub files: usize,
}

impl WriteJson for usize {
    ghost json = { json_of_number };

    ghost use Rattle.wit_json.specs.Values.{json_of_number};

    fn write_json(&self, out: &mut JsonText) -> Result<(), AllocError> {
        out.number(*self as u64)
    }
}

impl WriteJson for Told {
    ghost json = { json_of_told };

    fn write_json(&self, out: &mut JsonText) -> Result<(), AllocError> {
        out.begin_object()?;
        out.member("worlds", &self.worlds)?;
        out.member("interfaces", &self.interfaces)?;
        out.member("types", &self.types)?;
        out.member("packages", &self.packages)?;
        out.member("sources", &self.files)?;
        out.end_object()
    }
}

/// The things behind the first so many.
fn behind<T>(items: &Items<T>, told: usize) -> &[T]
    ensures { result.now ≡ drop told items.now }
{
    let items = items.as_slice();
    if told < items.len() {
        &items[told..]
    } else {
        &items[items.len()..]
    }
}

/// The files behind the first so many.
fn files_behind(files: &SourceMap, told: usize) -> SourceFiles<'_>
    ensures { result ≡ drop told (files_of files.now.files) }
{
    let mut left = files.files();
    for _file in 0..told {
        left.next();
    }
    left
}

impl JsonText {
    /// Writes the things of a list behind the first so many.
    fn items_behind<T: WriteJson>(
        &mut self,
        name: &str,
        items: &Items<T>,
        told: usize,
    ) -> Result<(), AllocError>
        ensures { OnOk result
            (Adds self.old self.new (member name.now (list_of T.json (drop told items.now)))) }
    {
        self.key(name)?;
        self.list(behind(items, told))
    }

    /// Writes what the layout leaves out of these things.
    fn details_behind<T: WriteDetails>(
        &mut self,
        name: &str,
        items: &Items<T>,
        told: usize,
    ) -> Result<(), AllocError>
        ensures { OnOk result
            (Adds self.old self.new (member name.now (list_of T.details (drop told items.now)))) }
    {
        self.key(name)?;
        self.details_list(behind(items, told))
    }

    /// Writes the things of a graph behind those that were told.
    fn graph_behind(&mut self, told: Told, graph: &Graph) -> Result<(), AllocError>
        ensures { OnOk result
            (self.new ≡ self.old ++ json_tokens (json_of_graph (graph_behind told graph.now))) }
    {
        self.begin_object()?;
        self.items_behind("worlds", &graph.worlds, told.worlds)?;
        self.items_behind("interfaces", &graph.interfaces, told.interfaces)?;
        self.items_behind("types", &graph.types, told.types)?;
        self.items_behind("packages", &graph.packages, told.packages)?;
        self.end_object()
    }

    /// Writes what the layout leaves out of these things.
    fn graph_details_behind(&mut self, told: Told, graph: &Graph) -> Result<(), AllocError>
        ensures { OnOk result
            (self.new ≡ self.old ++ json_tokens (graph_details (graph_behind told graph.now))) }
    {
        self.begin_object()?;
        self.details_behind("worlds", &graph.worlds, told.worlds)?;
        self.details_behind("interfaces", &graph.interfaces, told.interfaces)?;
        self.details_behind("types", &graph.types, told.types)?;
        self.end_object()
    }

    /// Writes the files behind the first so many.
    fn files_behind(&mut self, files: &SourceMap, told: usize) -> Result<(), AllocError>
        ensures { OnOk result (self.new
            ≡ self.old
            ++ json_tokens (list_of json_of_file (drop told (files_of files.now.files)))) }
    {
        self.begin_array()?;
        for (path, text) in files_behind(files, told) {
            self.file(path, text)?;
        }
        self.end_array()
    }

    /// Writes these things as a member.
    fn graph_member_behind(&mut self, told: Told, graph: &Graph) -> Result<(), AllocError>
        ensures { OnOk result (Adds self.old self.new
            (member (codes "graph") (json_of_graph (graph_behind told graph.now)))) }
    {
        self.key("graph")?;
        self.graph_behind(told, graph)
    }

    /// Writes what the layout leaves out of them as a member.
    fn details_member_behind(&mut self, told: Told, graph: &Graph) -> Result<(), AllocError>
        ensures { OnOk result (Adds self.old self.new
            (member (codes "details") (graph_details (graph_behind told graph.now)))) }
    {
        self.key("details")?;
        self.graph_details_behind(told, graph)
    }

    /// Writes the files behind the first so many as a member.
    fn files_member_behind(&mut self, told: Told, files: &SourceMap) -> Result<(), AllocError>
        ensures { OnOk result (Adds self.old self.new
            (member (codes "sources")
            (list_of json_of_file (drop told.files (files_of files.now.files))))) }
    {
        self.key("sources")?;
        self.files_behind(files, told.files)
    }

    /// Writes what is new of a graph with what stands beside it.
    pub fn news(
        &mut self,
        told: Told,
        graph: &Graph,
        features: &Features,
        rule: TrackRule,
        files: &SourceMap,
    ) -> Result<(), AllocError>
        ensures { OnOk result (self.new
            ≡ self.old
            ++ json_tokens (json_of_news told graph.now features.now rule files.now)) }
    {
        self.begin_object()?;
        self.member("from", &told)?;
        self.graph_member_behind(told, graph)?;
        self.details_member_behind(told, graph)?;
        self.member("features", features)?;
        self.member("track-rule", &rule)?;
        self.files_member_behind(told, files)?;
        self.end_object()
    }
}

/// What is new of a graph with what stands beside it, for someone who was told so many things, without a space. The only
/// error is want of memory.
pub fn news_to_json(
    alloc: Global,
    told: Told,
    graph: &Graph,
    features: &Features,
    rule: TrackRule,
    files: &SourceMap,
) -> Result<String, AllocError>
    ensures { IfOk result (λ text.
        string_bytes text ≡ compact (json_of_news told graph.now features.now rule files.now)) }
{
    let mut out = JsonText::new(alloc);
    out.news(told, graph, features, rule, files)?;
    Ok(out.into_string())
}
