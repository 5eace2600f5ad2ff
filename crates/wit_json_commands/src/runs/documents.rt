//! From the bytes of a document to those of the one that comes out.
ghost use Rattle.std.specs.Prelude.{◌≡◌, ◌⊎◌, [], Bool, List, Some, ℕ, true, IfErr, IfOk, IfSome, OnOk, IsErrOf, string_bytes};
ghost use Rattle.std.specs.Str.{IsUtf8};
ghost use Rattle.std.specs.Io.KnownBytes.{Appends};
ghost use Rattle.wit_streams.specs.Watched.{AppendsBeginning};
ghost use Rattle.wit_json.specs.Graph.{compact};
ghost use Rattle.wit_json_commands.specs.Output.{json_of_output};
ghost use Rattle.wit_json_commands.specs.Documents.{ComesOut, ComesOutOfBytes, TellsPlace, Understands};
ghost use Rattle.wit_json_commands.specs.steps.Outcomes.{Begins, TellsFaultOf, WritesOutput};

use super::graph_faults::no_valid_graph;
use super::long_answers::without_long_answers;
use super::orders::responses_to;
use crate::commands::{Document, Order};
use crate::replies::{Response, fault_to_json, output_to_json};
use std::alloc::{AllocError, Global};
use std::io::{Read, Write};
use wit_json_graphs::ResolveParts;
use wit_json_reading::{Fault, ReadError, place_of, read_text};
use wit_resolve_graph::{Items, Resolve};
use wit_streams::{StreamFault, Watched, read_all, write_all};

/// Carries out the commands of a document on the graph with which it begins, or an empty one: whether it is understood,
/// and the document that comes out. The only error is want of memory outside a command.
pub fn respond(alloc: Global, text: &str) -> Result<(bool, String), AllocError>
    ensures { IfOk result (λ answer. ComesOut text.now answer.0 (string_bytes answer.1)) }
{
    match outcome(alloc, text) {
        Ok(out) => Ok((true, out)),
        Err(ReadError::Fault(fault)) => Ok((false, fault_text(alloc, text, &fault)?)),
        Err(ReadError::OutOfMemory) => Err(AllocError),
    }
}

/// What comes out of a document that is understood, or the fault of another one.
fn outcome(alloc: Global, text: &str) -> Result<String, ReadError>
    ensures ok { IfOk result (λ out. Understands text.now (string_bytes out)) }
    ensures cause { IfErr result (TellsFaultOf text.now) }
{
    let document: Document = read_text(alloc, text)?;
    let resolve = begin(alloc, document.resolve)?;
    Ok(output(alloc, resolve, document.commands)?)
}

/// The graph that a document begins with: an empty one, or the one that it has, which is to be valid.
fn begin(alloc: Global, parts: Option<ResolveParts>) -> Result<Resolve, ReadError>
    ensures { Begins parts result }
{
    match parts {
        Some(parts) => given(alloc, parts),
        None => Ok(Resolve::new(alloc)),
    }
}

/// The graph that a document has, which is to be valid.
fn given(alloc: Global, parts: ResolveParts) -> Result<Resolve, ReadError>
    ensures { Begins (Some parts) result }
{
    let ResolveParts {
        graph,
        features,
        source_map,
        track_rule,
    } = parts;
    match Resolve::of_graph_or_fault(alloc, graph, features, source_map, track_rule) {
        Ok(Ok(resolve)) => Ok(resolve),
        Ok(Err(fault)) => no_valid_graph(alloc, fault),
        Err(_) => Err(ReadError::OutOfMemory),
    }
}

/// What comes out of a document that can't be read, or whose graph isn't valid.
pub fn fault_text(alloc: Global, text: &str, fault: &Fault) -> Result<String, AllocError>
    ensures { IfOk result (λ out. TellsPlace text.now fault.now (string_bytes out)) }
{
    let place = place_of(alloc, text, fault)?;
    fault_to_json(alloc, fault, place)
}

/// What comes out of commands that begin with a graph. Where there is no memory to write it with its long answers, these are
/// refused.
fn output(alloc: Global, mut resolve: Resolve, commands: Items<Order>) -> Result<String, AllocError>
    ensures { IfOk result (λ out. WritesOutput resolve commands (string_bytes out)) }
{
    let Ok(replies) = responses_to(alloc, &mut resolve, commands) else {
        return Err(AllocError);
    };
    match write_output(alloc, &replies, &resolve) {
        Ok(out) => Ok(out),
        Err(_) => {
            let (graph, files) = (resolve.graph(), resolve.source_map());
            let left = without_long_answers(alloc, graph, files, replies)?;
            write_output(alloc, &left, &resolve)
        }
    }
}

/// Replies and the graph with what stands beside it, as they come out.
fn write_output(
    alloc: Global,
    replies: &Items<Response>,
    resolve: &Resolve,
) -> Result<String, AllocError>
    ensures { IfOk result (λ out.
        string_bytes out ≡ compact (json_of_output replies.now resolve.now.graph
        resolve.now.features resolve.now.track_rule resolve.now.source_map)) }
{
    let (graph, features) = (resolve.graph(), resolve.features());
    let (rule, files) = (resolve.track_rule(), resolve.source_map());
    output_to_json(alloc, replies, graph, features, rule, files)
}

/// Reads a document to the end of the reader, carries it out as `respond` does, and writes the one that comes out: of one
/// that isn't understood its first fault, and the answer is then false.
///
/// The faults are a failed call of the reader or the writer, an input that isn't UTF-8, and want of memory outside a
/// command. The clauses speak of readers and writers that tell their bytes. Where the writer fails, a beginning of what was
/// to be written is; after any other fault nothing is. Once the reader has told its end, an input that isn't UTF-8 is told
/// as that, whatever memory there is.
pub fn execute<R: Read, W: Write>(
    alloc: Global,
    reader: &mut Watched<R>,
    writer: &mut Watched<W>,
) -> Result<bool, StreamFault>
    ensures ok { IfOk result (λ understood. IfSome (R.remaining reader.old.inner) (λ input.
        (text : List ℕ) × ComesOutOfBytes input understood text
        × Appends (W.contents writer.old.inner) (W.contents writer.new.inner) text)) }
    ensures cut { IsErrOf result StreamFault.Write → IfSome (R.remaining reader.old.inner) (λ input.
        (understood : Bool) × (text : List ℕ) × ComesOutOfBytes input understood text
        × AppendsBeginning (W.contents writer.old.inner) (W.contents writer.new.inner) text) }
    ensures untouched { IfErr result
        (λ fault. (fault ≡ StreamFault.Write) ⊎ (writer.new ≡ writer.old)) }
    ensures end { OnOk result (IfSome (R.remaining reader.new.inner) (λ rest. rest ≡ [])) }
    ensures read { IsErrOf result StreamFault.Read → reader.new.failed ≡ true }
    ensures write { IsErrOf result StreamFault.Write → writer.new.failed ≡ true }
    ensures utf8 { IsErrOf result StreamFault.NotUtf8
        → IfSome (R.remaining reader.old.inner) (λ input. IsUtf8 input → ⊥) }
    ensures memory { IsErrOf result StreamFault.OutOfMemory
        → (reader.new.ended ≡ reader.old.ended) ⊎ IfSome (R.remaining reader.old.inner) IsUtf8 }
{
    let input = read_all(alloc, reader)?;
    let (understood, text) = responded(alloc, &input)?;
    write_all(writer, &text)?;
    Ok(understood)
}

/// What comes out of an input, and whether it is understood. An input that isn't UTF-8 is told as that, whatever memory
/// there is.
fn responded(alloc: Global, input: &[u8]) -> Result<(bool, String), StreamFault>
    ensures ok { IfOk result
        (λ answer. ComesOutOfBytes input.now answer.0 (string_bytes answer.1)) }
    ensures read { IsErrOf result StreamFault.Read → ⊥ }
    ensures write { IsErrOf result StreamFault.Write → ⊥ }
    ensures utf8 { IsErrOf result StreamFault.NotUtf8 → IsUtf8 input.now → ⊥ }
    ensures memory { IsErrOf result StreamFault.OutOfMemory → IsUtf8 input.now }
{
    match str::from_utf8(input) {
        Ok(text) => Ok(respond(alloc, text)?),
        Err(_) => Err(StreamFault::NotUtf8),
    }
}
