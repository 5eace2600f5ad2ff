//! Scripts, JSON documents and graphs that stay for programs that are written in C, and for whatever else calls C:
//! `include/witgraph.h` declares these functions, and says what each argument is and what a caller owes. `witgraph_calls` has
//! what they do.
#![tactic(auto)]

mod handle;
mod loose;

ghost use Rattle.std.specs.Prelude.{◌≡◌, ◌⊎◌, ◌<◌, ◌≤◌, [], true, false, length, string_bytes, IsSomeAnd, MatchOption};
ghost use Rattle.std.specs.Str.{IsUtf8};
ghost use Rattle.wit_json_commands.specs.Documents.{ComesOutOfBytes, TellsFault};
ghost use Rattle.wit_resolve_graph.specs.State.{new_state};
ghost use Rattle.wit_script.specs.Prints.{Prints};
ghost use Rattle.wit_script_explain.specs.Explained.{Explains};
ghost use Rattle.witgraph_c.specs.Handles.{StaysOpen};
ghost use Rattle.witgraph_calls.specs.Graphs.{Applies, text_of_state};
ghost use Rattle.witgraph_calls.specs.News.{LeavesTold, text_of_news, told_all, told_nothing};
ghost use Rattle.witgraph_calls.specs.Output.{HasFront, IsTooLong, IsWritten};

use crate::handle::Handle;
use std::alloc::Global;
use witgraph_calls::{
    CUT_SHORT, INPUT_NOT_UTF8, NO_GRAPH, NO_MEMORY, NOT_UNDERSTOOD, OUTPUT_TOO_SMALL, Session,
    UNDERSTOOD, carry_out, execute, explain,
};

/// `execute` of `witgraph_calls`: the answers of a script.
#[unsafe(no_mangle)]
pub extern "C" fn witgraph_execute(
    alloc: Global,
    input: &[u8],
    output: &mut [u8],
    needed: &mut usize,
) -> u32
    ensures status { result ≤ NO_MEMORY }
    ensures understood { result ≡ UNDERSTOOD
        → IsWritten (Prints input.now true) output.old output.new needed.new }
    ensures not_understood { result ≡ NOT_UNDERSTOOD
        → IsWritten (Prints input.now false) output.old output.new needed.new }
    ensures small { result ≡ OUTPUT_TOO_SMALL
        → IsTooLong (Prints input.now) output.old needed.new }
    ensures utf8 { result ≡ INPUT_NOT_UTF8 → IsUtf8 input.now → ⊥ }
    ensures memory { result ≡ NO_MEMORY → IsUtf8 input.now }
    ensures kept { OUTPUT_TOO_SMALL ≤ result → output.new ≡ output.old }
    ensures none { INPUT_NOT_UTF8 ≤ result → needed.new ≡ 0 }
{
    execute(alloc, input, output, needed)
}

/// `explain` of `witgraph_calls`: the refusals of a script, each with its lines.
#[unsafe(no_mangle)]
pub extern "C" fn witgraph_explain(
    alloc: Global,
    input: &[u8],
    output: &mut [u8],
    needed: &mut usize,
) -> u32
    ensures status { result ≤ NO_MEMORY }
    ensures understood { result ≡ UNDERSTOOD
        → IsWritten (Explains input.now true) output.old output.new needed.new }
    ensures not_understood { result ≡ NOT_UNDERSTOOD
        → IsWritten (Explains input.now false) output.old output.new needed.new }
    ensures small { result ≡ OUTPUT_TOO_SMALL
        → IsTooLong (Explains input.now) output.old needed.new }
    ensures utf8 { result ≡ INPUT_NOT_UTF8 → IsUtf8 input.now → ⊥ }
    ensures memory { result ≡ NO_MEMORY → IsUtf8 input.now }
    ensures kept { OUTPUT_TOO_SMALL ≤ result → output.new ≡ output.old }
    ensures none { INPUT_NOT_UTF8 ≤ result → needed.new ≡ 0 }
{
    explain(alloc, input, output, needed)
}

/// `carry_out` of `witgraph_calls`: what comes out of a JSON document.
#[unsafe(no_mangle)]
pub extern "C" fn witgraph_json(
    alloc: Global,
    input: &[u8],
    output: &mut [u8],
    needed: &mut usize,
) -> u32
    ensures status { result ≤ NO_MEMORY }
    ensures understood { result ≡ UNDERSTOOD
        → IsWritten (ComesOutOfBytes input.now true) output.old output.new needed.new }
    ensures not_understood { result ≡ NOT_UNDERSTOOD
        → IsWritten (ComesOutOfBytes input.now false) output.old output.new needed.new }
    ensures small { result ≡ OUTPUT_TOO_SMALL
        → IsTooLong (ComesOutOfBytes input.now) output.old needed.new }
    ensures utf8 { result ≡ INPUT_NOT_UTF8 → IsUtf8 input.now → ⊥ }
    ensures memory { result ≡ NO_MEMORY → IsUtf8 input.now }
    ensures kept { OUTPUT_TOO_SMALL ≤ result → output.new ≡ output.old }
    ensures none { INPUT_NOT_UTF8 ≤ result → needed.new ≡ 0 }
{
    carry_out(alloc, input, output, needed)
}

/// Opens an empty graph. If one is open there, the new one takes its place.
#[unsafe(no_mangle)]
pub extern "C" fn witgraph_open(alloc: Global, graph: &mut Handle) -> u32
    ensures status { (result ≡ UNDERSTOOD) ⊎ (result ≡ NO_MEMORY) }
    ensures opened { result ≡ UNDERSTOOD → IsSomeAnd graph.new.session
        (λ session. (session.resolve ≡ new_state) × (session.told ≡ told_nothing)
        × (string_bytes session.reply ≡ [])) }
    ensures kept { result ≡ NO_MEMORY → graph.new.session ≡ graph.old.session }
{
    match Box::new(alloc, Session::new(alloc)) {
        Ok(session) => {
            graph.put(session);
            UNDERSTOOD
        }
        Err(_) => NO_MEMORY,
    }
}

/// `Session::apply` of `witgraph_calls` on the graph that is open: the commands of a document.
#[unsafe(no_mangle)]
pub extern "C" fn witgraph_apply(
    alloc: Global,
    graph: &mut Handle,
    input: &[u8],
    needed: &mut usize,
) -> u32
    ensures status { result ≤ CUT_SHORT }
    ensures small { result ≡ OUTPUT_TOO_SMALL → ⊥ }
    ensures closed { result ≡ NO_GRAPH
        → (graph.old.session ≡ None) × (graph.new.session ≡ None) × (needed.new ≡ 0) }
    ensures needed { (result ≡ NO_GRAPH → ⊥) → StaysOpen graph.old.session graph.new.session
        (λ old new. needed.new ≡ length (string_bytes new.reply)) }
    ensures understood { result ≡ UNDERSTOOD → IsUtf8 input.now
        × StaysOpen graph.old.session graph.new.session
        (λ old new. Applies old.resolve input.now new.resolve (string_bytes new.reply)
        × LeavesTold input.now old.told new.told) }
    ensures not_understood { result ≡ NOT_UNDERSTOOD → IsUtf8 input.now
        × StaysOpen graph.old.session graph.new.session
        (λ old new. (new.resolve ≡ old.resolve) × (new.told ≡ old.told)
        × TellsFault input.now (string_bytes new.reply)) }
    ensures utf8 { result ≡ INPUT_NOT_UTF8 → (IsUtf8 input.now → ⊥)
        × StaysOpen graph.old.session graph.new.session
        (λ old new. (new.resolve ≡ old.resolve) × (new.told ≡ old.told)
        × (string_bytes new.reply ≡ [])) }
    ensures memory { result ≡ NO_MEMORY → IsUtf8 input.now
        × StaysOpen graph.old.session graph.new.session
        (λ old new. (new.resolve ≡ old.resolve) × (new.told ≡ old.told)
        × (string_bytes new.reply ≡ [])) }
    ensures cut { result ≡ CUT_SHORT → IsUtf8 input.now
        × StaysOpen graph.old.session graph.new.session
        (λ old new. (new.told ≡ told_nothing) × (string_bytes new.reply ≡ [])) }
{
    match graph.take(alloc) {
        Some(mut session) => {
            let status = session.apply(alloc, input, needed);
            graph.put(session);
            status
        }
        None => {
            *needed = 0;
            NO_GRAPH
        }
    }
}

/// `Session::write` of `witgraph_calls` on the graph that is open: the graph with what stands beside it.
#[unsafe(no_mangle)]
pub extern "C" fn witgraph_write(alloc: Global, graph: &mut Handle, needed: &mut usize) -> u32
    ensures status { (result ≡ UNDERSTOOD) ⊎ (result ≡ NO_MEMORY) ⊎ (result ≡ NO_GRAPH) }
    ensures closed { result ≡ NO_GRAPH
        → (graph.old.session ≡ None) × (graph.new.session ≡ None) × (needed.new ≡ 0) }
    ensures kept { (result ≡ NO_GRAPH → ⊥) → StaysOpen graph.old.session graph.new.session
        (λ old new. (new.resolve ≡ old.resolve) × (new.told ≡ old.told)
        × (needed.new ≡ length (string_bytes new.reply))) }
    ensures written { result ≡ UNDERSTOOD → StaysOpen graph.old.session graph.new.session
        (λ old new. string_bytes new.reply ≡ text_of_state new.resolve) }
    ensures memory { result ≡ NO_MEMORY → StaysOpen graph.old.session graph.new.session
        (λ old new. string_bytes new.reply ≡ []) }
{
    match graph.take(alloc) {
        Some(mut session) => {
            let status = session.write(alloc, needed);
            graph.put(session);
            status
        }
        None => {
            *needed = 0;
            NO_GRAPH
        }
    }
}

/// `Session::write_new` of `witgraph_calls` on the graph that is open: what is new of it since the last such call.
#[unsafe(no_mangle)]
pub extern "C" fn witgraph_write_new(alloc: Global, graph: &mut Handle, needed: &mut usize) -> u32
    ensures status { (result ≡ UNDERSTOOD) ⊎ (result ≡ NO_MEMORY) ⊎ (result ≡ NO_GRAPH) }
    ensures closed { result ≡ NO_GRAPH
        → (graph.old.session ≡ None) × (graph.new.session ≡ None) × (needed.new ≡ 0) }
    ensures kept { (result ≡ NO_GRAPH → ⊥) → StaysOpen graph.old.session graph.new.session
        (λ old new. (new.resolve ≡ old.resolve)
        × (needed.new ≡ length (string_bytes new.reply))) }
    ensures written { result ≡ UNDERSTOOD → StaysOpen graph.old.session graph.new.session
        (λ old new. (string_bytes new.reply ≡ text_of_news old.told new.resolve)
        × (new.told ≡ told_all new.resolve)) }
    ensures memory { result ≡ NO_MEMORY → StaysOpen graph.old.session graph.new.session
        (λ old new. (new.told ≡ old.told) × (string_bytes new.reply ≡ [])) }
{
    match graph.take(alloc) {
        Some(mut session) => {
            let status = session.write_new(alloc, needed);
            graph.put(session);
            status
        }
        None => {
            *needed = 0;
            NO_GRAPH
        }
    }
}

/// `Session::copy_reply` of `witgraph_calls` on the graph that is open: the text that the last call left.
#[unsafe(no_mangle)]
pub extern "C" fn witgraph_reply(
    alloc: Global,
    graph: &mut Handle,
    output: &mut [u8],
    needed: &mut usize,
) -> u32
    ensures kept { graph.new.session ≡ graph.old.session }
    ensures status { (result ≡ UNDERSTOOD) ⊎ (result ≡ OUTPUT_TOO_SMALL) ⊎ (result ≡ NO_GRAPH) }
    ensures closed { result ≡ NO_GRAPH
        → (graph.old.session ≡ None) × (output.new ≡ output.old) × (needed.new ≡ 0) }
    ensures copied { result ≡ UNDERSTOOD → IsSomeAnd graph.old.session
        (λ session. HasFront (string_bytes session.reply) output.old output.new
        × (needed.new ≡ length (string_bytes session.reply))) }
    ensures small { result ≡ OUTPUT_TOO_SMALL → IsSomeAnd graph.old.session
        (λ session. (length output.old < length (string_bytes session.reply))
        × (output.new ≡ output.old) × (needed.new ≡ length (string_bytes session.reply))) }
{
    match graph.take(alloc) {
        Some(session) => {
            let status = session.copy_reply(output, needed);
            graph.put(session);
            status
        }
        None => {
            *needed = 0;
            NO_GRAPH
        }
    }
}

/// Closes the graph that is open, and frees all that it took.
#[unsafe(no_mangle)]
pub extern "C" fn witgraph_close(alloc: Global, graph: &mut Handle) -> u32
    ensures status { MatchOption graph.old.session (result ≡ NO_GRAPH) (λ _. result ≡ UNDERSTOOD) }
    ensures closed { graph.new.session ≡ None }
{
    match graph.take(alloc) {
        Some(_) => UNDERSTOOD,
        None => NO_GRAPH,
    }
}
