//! Documents that are carried out on a graph that stays.
ghost use Rattle.std.specs.Prelude.{◌≡◌, ◌⊎◌, ◌≤◌, [], ℕ, Err, IfErr, IfOk, IfSome, MatchOption, OnErr, OnOk, Some, string_bytes, codes};
ghost use Rattle.std.specs.Str.{IsUtf8};
ghost use Rattle.wit_json.specs.Graph.{compact};
ghost use Rattle.wit_json.specs.Values.{list_of, member, object};
ghost use Rattle.wit_json_commands.specs.Answers.{json_of_response};
ghost use Rattle.wit_json_commands.specs.Documents.{BeginsValid, TellsFault, TellsPlace};
ghost use Rattle.wit_json_commands.specs.steps.Outcomes.{Begins, TellsFaultOf};
ghost use Rattle.witgraph_calls.specs.Graphs.{Applies, Replies, start_for, text_of_state};
ghost use Rattle.witgraph_calls.specs.News.{LeavesTold, told_nothing};

use crate::news::{NOTHING, told_after};
use crate::status::{
    CUT_SHORT, INPUT_NOT_UTF8, NO_GRAPH, NO_MEMORY, NOT_UNDERSTOOD, OUTPUT_TOO_SMALL, UNDERSTOOD,
};
use std::alloc::{AllocError, Global};
use wit_json::{JsonText, Told, whole_to_json};
use wit_json_commands::{
    Document, Order, Response, fault_text, no_valid_graph, responses_to, without_long_answers,
};
use wit_json_graphs::ResolveParts;
use wit_json_reading::{Fault, ReadError, read_text};
use wit_resolve_graph::{Items, Resolve};

/// Carries out a document on a graph, of which so much was told: the status, and the replies or the fault of a document that
/// isn't understood.
pub fn answer(alloc: Global, resolve: &mut Resolve, told: &mut Told, input: &[u8]) -> (u32, String)
    ensures status { result.0 ≤ CUT_SHORT }
    ensures small { result.0 ≡ OUTPUT_TOO_SMALL → ⊥ }
    ensures closed { result.0 ≡ NO_GRAPH → ⊥ }
    ensures understood { result.0 ≡ UNDERSTOOD → IsUtf8 input.now
        × Applies resolve.old input.now resolve.new (string_bytes result.1) }
    ensures not_understood { result.0 ≡ NOT_UNDERSTOOD
        → IsUtf8 input.now × TellsFault input.now (string_bytes result.1) }
    ensures utf8 { result.0 ≡ INPUT_NOT_UTF8 → IsUtf8 input.now → ⊥ }
    ensures memory { NO_MEMORY ≤ result.0 → IsUtf8 input.now }
    ensures kept { NOT_UNDERSTOOD ≤ result.0 → result.0 ≤ NO_MEMORY → resolve.new ≡ resolve.old }
    ensures none { INPUT_NOT_UTF8 ≤ result.0 → string_bytes result.1 ≡ [] }
    ensures left { result.0 ≡ UNDERSTOOD → LeavesTold input.now told.old told.new }
    ensures told { NOT_UNDERSTOOD ≤ result.0 → result.0 ≤ NO_MEMORY → told.new ≡ told.old }
    ensures nothing { result.0 ≡ CUT_SHORT → told.new ≡ told_nothing }
{
    let Ok(text) = str::from_utf8(input) else {
        return (INPUT_NOT_UTF8, String::new(alloc));
    };
    match carry_out_on(alloc, resolve, told, text) {
        Ok(Some(replies)) => (UNDERSTOOD, replies),
        Ok(None) => (CUT_SHORT, String::new(alloc)),
        Err(ReadError::Fault(fault)) => tell(alloc, text, &fault),
        Err(ReadError::OutOfMemory) => (NO_MEMORY, String::new(alloc)),
    }
}

/// The replies to the commands of a document, which are carried out on a graph, or on the document's own, which takes its
/// place. None where memory is wanted on the way, and then nothing is left of what was told. An error comes before any command.
fn carry_out_on(
    alloc: Global,
    resolve: &mut Resolve,
    told: &mut Told,
    text: &str,
) -> Result<Option<String>, ReadError>
    ensures ok { IfOk result (λ made. MatchOption made (told.new ≡ told_nothing) (λ replies.
        Applies resolve.old text.now resolve.new (string_bytes replies)
        × LeavesTold text.now told.old told.new)) }
    ensures cause { IfErr result (TellsFaultOf text.now) }
    ensures kept { OnErr result ((resolve.new ≡ resolve.old) × (told.new ≡ told.old)) }
{
    let document: Document = read_text(alloc, text)?;
    let left = told_after(*told, &document);
    begin_with(alloc, resolve, document.resolve)?;
    match reply(alloc, resolve, document.commands) {
        Some(replies) => {
            *told = left;
            Ok(Some(replies))
        }
        None => {
            *told = NOTHING;
            Ok(None)
        }
    }
}

/// Puts the graph of a document, if it has one, in the place of another one.
fn begin_with(
    alloc: Global,
    resolve: &mut Resolve,
    parts: Option<ResolveParts>,
) -> Result<(), ReadError>
    ensures ok { OnOk result
        (BeginsValid parts × (resolve.new ≡ start_for resolve.old parts)) }
    ensures cause { IfErr result (λ error. Begins parts (Err error)) }
    ensures kept { OnErr result (resolve.new ≡ resolve.old) }
{
    match parts {
        Some(parts) => {
            *resolve = valid(alloc, parts)?;
            Ok(())
        }
        None => Ok(()),
    }
}

/// A graph with what stands beside it; that it isn't valid is a fault of its document.
fn valid(alloc: Global, parts: ResolveParts) -> Result<Resolve, ReadError>
    ensures { Begins (Some parts) result }
{
    let ResolveParts {
        graph,
        features,
        source_map,
        track_rule,
    } = parts;
    match Resolve::of_graph_or_fault(alloc, graph, features, source_map, track_rule) {
        Ok(Ok(resolve)) => Ok(resolve),
        Ok(Err(fault)) => no_valid_graph(alloc, fault),
        Err(_) => Err(ReadError::OutOfMemory),
    }
}

/// The replies to commands, which are carried out on a graph. None where memory is wanted on the way; long answers that
/// can't be written are refused.
fn reply(alloc: Global, resolve: &mut Resolve, commands: Items<Order>) -> Option<String>
    ensures { IfSome result
        (λ text. Replies resolve.old commands resolve.new (string_bytes text)) }
{
    let Ok(replies) = responses_to(alloc, resolve, commands) else {
        return None;
    };
    if let Ok(text) = replies_to_json(alloc, &replies) {
        return Some(text);
    }
    let (graph, files) = (resolve.graph(), resolve.source_map());
    let left = without_long_answers(alloc, graph, files, replies).ok()?;
    replies_to_json(alloc, &left).ok()
}

/// The replies to commands, without a space. The only error is want of memory.
fn replies_to_json(alloc: Global, replies: &Items<Response>) -> Result<String, AllocError>
    ensures { IfOk result
        (λ text. string_bytes text
        ≡ compact (object (member (codes "replies") (list_of json_of_response replies.now)))) }
{
    let mut out = JsonText::new(alloc);
    out.begin_object()?;
    out.member("replies", replies)?;
    out.end_object()?;
    Ok(out.into_string())
}

/// The status and the text of a fault.
fn tell(alloc: Global, text: &str, fault: &Fault) -> (u32, String)
    ensures status { (result.0 ≡ NOT_UNDERSTOOD) ⊎ (result.0 ≡ NO_MEMORY) }
    ensures told { result.0 ≡ NOT_UNDERSTOOD
        → TellsPlace text.now fault.now (string_bytes result.1) }
    ensures none { result.0 ≡ NO_MEMORY → string_bytes result.1 ≡ [] }
{
    match fault_text(alloc, text, fault) {
        Ok(told) => (NOT_UNDERSTOOD, told),
        Err(_) => (NO_MEMORY, String::new(alloc)),
    }
}

/// The status and the text of a graph with what stands beside it.
pub fn whole_text(alloc: Global, resolve: &Resolve) -> (u32, String)
    ensures status { (result.0 ≡ UNDERSTOOD) ⊎ (result.0 ≡ NO_MEMORY) }
    ensures written { result.0 ≡ UNDERSTOOD → string_bytes result.1 ≡ text_of_state resolve.now }
    ensures none { result.0 ≡ NO_MEMORY → string_bytes result.1 ≡ [] }
{
    let (graph, features) = (resolve.graph(), resolve.features());
    let (rule, files) = (resolve.track_rule(), resolve.source_map());
    match whole_to_json(alloc, graph, features, rule, files) {
        Ok(text) => (UNDERSTOOD, text),
        Err(_) => (NO_MEMORY, String::new(alloc)),
    }
}
