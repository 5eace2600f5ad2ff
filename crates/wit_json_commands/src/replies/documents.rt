//! The documents that come out.
ghost use Rattle.std.specs.Prelude.{◌≡◌, ◌++◌, IfOk, OnOk, codes, string_bytes};
ghost use Rattle.json.specs.Tree.{json_tokens};
ghost use Rattle.wit_json.specs.Graph.{compact};
ghost use Rattle.wit_json.specs.Values.{json_of_text, member};
ghost use Rattle.wit_json.specs.steps.Members.{Adds};
ghost use Rattle.wit_json_reading.specs.Messages.{expected_text};
ghost use Rattle.wit_json_commands.specs.Output.{json_of_fault, json_of_output, json_of_path, json_of_place, json_of_step, reason_members};
ghost use Rattle.wit_graph_faults.specs.FaultText.{graph_clause_name, graph_fault_text};

use super::answers::Response;
use super::file_places::write_number;
use super::unshaped::write_text;
use std::alloc::{AllocError, Global};
use wit_data::{Items, SourceMap, TrackRule};
use wit_graph_data::{Features, Graph};
use wit_graph_faults::{GraphClause, GraphFault};
use wit_json::JsonText;
use wit_json_reading::{Expected, Fault, FaultPlace, Step};

/// The answers to the commands of a document, and the graph with what stands beside it, without a space. The only error
/// is want of memory.
pub fn output_to_json(
    alloc: Global,
    replies: &Items<Response>,
    graph: &Graph,
    features: &Features,
    rule: TrackRule,
    files: &SourceMap,
) -> Result<String, AllocError>
    ensures { IfOk result (λ text.
        string_bytes text
        ≡ compact (json_of_output replies.now graph.now features.now rule files.now)) }
{
    let mut out = JsonText::new(alloc);
    out.begin_object()?;
    out.member("replies", replies)?;
    out.key("resolve")?;
    out.whole(graph, features, rule, files)?;
    out.end_object()?;
    Ok(out.into_string())
}

/// Writes a step of a path.
fn write_step(out: &mut JsonText, step: &Step) -> Result<(), AllocError>
    ensures { OnOk result (out.new ≡ out.old ++ json_tokens (json_of_step step.now)) }
{
    match step {
        Step::Member(name) => out.string(name.as_str()),
        Step::Item(index) => out.number(*index as u64),
    }
}

/// Writes the steps of a path, the first one first.
fn write_path(out: &mut JsonText, steps: &[Step]) -> Result<(), AllocError>
    ensures { OnOk result (out.new ≡ out.old ++ json_tokens (json_of_path steps.now)) }
{
    out.begin_array()?;
    for index in (0..steps.len()).rev() {
        write_step(out, &steps[index])?;
    }
    out.end_array()
}

/// Writes the member that has the path to a fault.
fn write_path_member(out: &mut JsonText, path: &Items<Step>) -> Result<(), AllocError>
    ensures { OnOk result (Adds out.old out.new (member (codes "path") (json_of_path path.now))) }
{
    out.key("path")?;
    write_path(out, path.as_slice())
}

/// Writes the member that has what was expected.
fn write_expected(out: &mut JsonText, expected: Expected) -> Result<(), AllocError>
    ensures { OnOk result (Adds out.old out.new
        (member (codes "expected") (json_of_text (expected_text expected)))) }
{
    let alloc = out.allocator();
    let text = format!(in alloc; "{expected}")?;
    out.key("expected")?;
    out.string(text.as_str())
}

/// Writes the members that have why a graph isn't valid, where that is the fault.
fn write_reason(out: &mut JsonText, expected: Expected) -> Result<(), AllocError>
    ensures { OnOk result (Adds out.old out.new (reason_members expected)) }
{
    match expected {
        Expected::ValidGraph(reason) => write_graph_fault(out, reason),
        _ => Ok(()),
    }
}

/// Writes the clause that a graph breaks, and the thing with what is said of it.
fn write_graph_fault(out: &mut JsonText, reason: GraphFault) -> Result<(), AllocError>
    ensures { OnOk result (Adds out.old out.new
        (member (codes "clause") (json_of_text (graph_clause_name reason.clause))
        ++ member (codes "message") (json_of_text (graph_fault_text reason)))) }
{
    write_clause(out, reason.clause)?;
    write_message(out, reason)
}

fn write_clause(out: &mut JsonText, clause: GraphClause) -> Result<(), AllocError>
    ensures { OnOk result (Adds out.old out.new
        (member (codes "clause") (json_of_text (graph_clause_name clause)))) }
{
    write_text(out, "clause", clause.name())
}

fn write_message(out: &mut JsonText, reason: GraphFault) -> Result<(), AllocError>
    ensures { OnOk result (Adds out.old out.new
        (member (codes "message") (json_of_text (graph_fault_text reason)))) }
{
    let alloc = out.allocator();
    let text = format!(in alloc; "{reason}")?;
    write_text(out, "message", text.as_str())
}

/// Writes the path to a fault, where its value begins, what was expected there, and of a graph why it isn't valid.
fn write_place(out: &mut JsonText, fault: &Fault, place: FaultPlace) -> Result<(), AllocError>
    ensures { OnOk result (out.new ≡ out.old ++ json_tokens (json_of_place fault.now place)) }
{
    out.begin_object()?;
    write_path_member(out, &fault.path)?;
    write_number(out, "offset", place.offset)?;
    write_number(out, "line", place.line)?;
    write_number(out, "column", place.column)?;
    write_expected(out, fault.expected)?;
    write_reason(out, fault.expected)?;
    out.end_object()
}

/// Why a document can't be read, without a space. The only error is want of memory.
pub fn fault_to_json(alloc: Global, fault: &Fault, place: FaultPlace) -> Result<String, AllocError>
    ensures { IfOk result (λ text. string_bytes text ≡ compact (json_of_fault fault.now place)) }
{
    let mut out = JsonText::new(alloc);
    out.begin_tagged("fault")?;
    write_place(&mut out, fault, place)?;
    out.end_object()?;
    Ok(out.into_string())
}
