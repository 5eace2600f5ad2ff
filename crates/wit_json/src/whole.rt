//! A graph with what stands beside it.
ghost use Rattle.std.specs.Prelude.{◌≡◌, ◌++◌, IfOk, OnOk, string_bytes};
ghost use Rattle.json.specs.Json.{boolean};
ghost use Rattle.json.specs.Tree.{json_tokens};
ghost use Rattle.wit_json.specs.Graph.{compact};
ghost use Rattle.wit_json.specs.Values.{json_of_text, list_of, member};
ghost use Rattle.wit_json.specs.steps.Members.{Adds};
ghost use Rattle.wit_json.specs.Whole.{json_of_features, json_of_file, json_of_rule, json_of_sources, json_of_whole};

use crate::writer::{JsonText, WriteJson};
use std::alloc::{AllocError, Global};
use wit_data::{SourceMap, TrackRule};
use wit_graph_data::{Features, Graph};
use wit_values::NameSet;

impl WriteJson for bool {
    ghost json = { boolean };

    fn write_json(&self, out: &mut JsonText) -> Result<(), AllocError> {
        out.boolean(*self)
    }
}

impl WriteJson for NameSet {
    ghost json = { list_of json_of_text };

    fn write_json(&self, out: &mut JsonText) -> Result<(), AllocError> {
        out.begin_array()?;
        for index in 0..self.len() {
            out.string(self.text_at(index))?;
        }
        out.end_array()
    }
}

impl WriteJson for TrackRule {
    ghost json = { json_of_rule };

    fn write_json(&self, out: &mut JsonText) -> Result<(), AllocError> {
        match self {
            TrackRule::Published => out.string("published"),
            TrackRule::WithPrereleases => out.string("with-prereleases"),
        }
    }
}

impl WriteJson for SourceMap {
    ghost json = { json_of_sources };

    fn write_json(&self, out: &mut JsonText) -> Result<(), AllocError> {
        out.begin_array()?;
        for (path, text) in self.files() {
            out.file(path, text)?;
        }
        out.end_array()
    }
}

impl WriteJson for Features {
    ghost json = { json_of_features };

    fn write_json(&self, out: &mut JsonText) -> Result<(), AllocError> {
        out.begin_object()?;
        out.member("all", &self.all)?;
        out.member("names", &self.names)?;
        out.end_object()
    }
}

impl JsonText {
    /// Writes a file.
    pub(crate) fn file(&mut self, path: &str, text: &str) -> Result<(), AllocError>
        ensures { OnOk result
            (self.new ≡ self.old ++ json_tokens (json_of_file (path.now, text.now))) }
    {
        self.begin_object()?;
        self.text_member("path", path)?;
        self.text_member("text", text)?;
        self.end_object()
    }

    /// Writes a member whose value is a text.
    fn text_member(&mut self, name: &str, text: &str) -> Result<(), AllocError>
        ensures { OnOk result (Adds self.old self.new (member name.now (json_of_text text.now))) }
    {
        self.key(name)?;
        self.string(text)
    }

    /// Writes a graph with what stands beside it.
    pub fn whole(
        &mut self,
        graph: &Graph,
        features: &Features,
        rule: TrackRule,
        files: &SourceMap,
    ) -> Result<(), AllocError>
        ensures { OnOk result (self.new
            ≡ self.old ++ json_tokens (json_of_whole graph.now features.now rule files.now)) }
    {
        self.begin_object()?;
        self.member("graph", graph)?;
        self.details("details", graph)?;
        self.member("features", features)?;
        self.member("track-rule", &rule)?;
        self.member("sources", files)?;
        self.end_object()
    }
}

/// A graph with what stands beside it, without a space: what the layout leaves out, the features that are on, the rule of
/// tracks, and the files. The only error is want of memory.
pub fn whole_to_json(
    alloc: Global,
    graph: &Graph,
    features: &Features,
    rule: TrackRule,
    files: &SourceMap,
) -> Result<String, AllocError>
    ensures { IfOk result (λ text.
        string_bytes text ≡ compact (json_of_whole graph.now features.now rule files.now)) }
{
    let mut out = JsonText::new(alloc);
    out.whole(graph, features, rule, files)?;
    Ok(out.into_string())
}
