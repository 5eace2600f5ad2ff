//! Packages and whole graphs.
ghost use Rattle.std.specs.Prelude.{◌≡◌, IfOk, string_bytes};
ghost use Rattle.wit_json.specs.Graph.{compact, json_of_graph, json_of_package, json_of_package_name};

use crate::writer::{JsonText, WriteJson, text_of};
use std::alloc::{AllocError, Global};
use wit_data::PackageName;
use wit_graph_data::{Graph, Package};

impl WriteJson for PackageName {
    ghost json = { json_of_package_name };

    fn write_json(&self, out: &mut JsonText) -> Result<(), AllocError> {
        let alloc = out.allocator();
        let text = format!(in alloc; "{self}")?;
        out.string(text.as_str())
    }
}

impl WriteJson for Package {
    ghost json = { json_of_package };

    fn write_json(&self, out: &mut JsonText) -> Result<(), AllocError> {
        out.begin_object()?;
        out.member("name", &self.name)?;
        out.docs(&self.docs)?;
        out.member("interfaces", &self.interfaces)?;
        out.member("worlds", &self.worlds)?;
        out.end_object()
    }
}

impl WriteJson for Graph {
    ghost json = { json_of_graph };

    fn write_json(&self, out: &mut JsonText) -> Result<(), AllocError> {
        out.begin_object()?;
        out.member("worlds", &self.worlds)?;
        out.member("interfaces", &self.interfaces)?;
        out.member("types", &self.types)?;
        out.member("packages", &self.packages)?;
        out.end_object()
    }
}

/// A graph as JSON, without a space. The only error is want of memory.
pub fn graph_to_json(alloc: Global, graph: &Graph) -> Result<String, AllocError>
    ensures { IfOk result (λ text. string_bytes text ≡ compact (json_of_graph graph.now)) }
{
    text_of(alloc, graph)
}
