//! Carries out the commands of each case of standard input in one document, and in two.
//!
//! A case is a line `=== NAME`, a line with some commands as a JSON list has them, and a line with others. They are carried
//! out in one document; and the first ones in a document, the others in one that begins with the graph that came out. The
//! name of a case is written where that isn't the same, and at the end how many cases there were. The crate's file `stdin`
//! holds the commands of worked scripts, as `check/script_documents.py --in-two` writes them.
#![tactic(auto)]

use std::alloc::Global;
use std::io;
use std::process::ExitCode;
use wit_json_commands::respond;

/// What comes out of a document; None where it isn't understood, or memory is wanting.
fn output_of(alloc: Global, document: &str) -> Option<String> {
    match respond(alloc, document) {
        Ok((true, output)) => Some(output),
        _ => None,
    }
}

/// The replies of an output, and what stands behind them from the graph on.
fn parts(output: &str) -> Option<(&str, &str)> {
    let (head, resolve) = output.split_once("],\"resolve\":")?;
    let (_, replies) = head.split_once("{\"replies\":[")?;
    Some((replies, resolve))
}

/// What comes out of commands in one document.
fn whole(alloc: Global, first: &str, second: &str) -> Option<String> {
    let document = format!(in alloc; "{{\"commands\":[{first},{second}]}}").ok()?;
    output_of(alloc, &document)
}

/// What comes out of commands in two documents, put together as that of one.
fn in_two(alloc: Global, first: &str, second: &str) -> Option<String> {
    let document = format!(in alloc; "{{\"commands\":[{first}]}}").ok()?;
    let begun = output_of(alloc, &document)?;
    let (replies, resolve) = parts(&begun)?;
    let document = format!(in alloc; "{{\"commands\":[{second}],\"resolve\":{resolve}").ok()?;
    let done = output_of(alloc, &document)?;
    let (others, resolve) = parts(&done)?;
    format!(in alloc; "{{\"replies\":[{replies},{others}],\"resolve\":{resolve}").ok()
}

/// Whether the commands of a case give the same in one document and in two; None where they aren't understood, or memory
/// is wanting.
fn is_same(alloc: Global, commands: &str) -> Option<bool> {
    let (first, rest) = commands.split_once('\n')?;
    let (second, _) = rest.split_once('\n')?;
    let one = whole(alloc, first, second)?;
    let two = in_two(alloc, first, second)?;
    Some(one == two)
}

/// Status 0 where each case was carried out.
fn main(rt: HostRuntime) -> ExitCode {
    let Ok(text) = io::read_to_string(rt.alloc(), rt.reader()) else {
        return ExitCode::FAILURE;
    };
    let mut count = 0u64;
    for case in text.as_str().split("=== ").skip(1) {
        let Some((name, commands)) = case.split_once('\n') else {
            return ExitCode::FAILURE;
        };
        let Some(same) = is_same(rt.alloc(), commands) else {
            return ExitCode::FAILURE;
        };
        if !same && println!(rt; "{name}").is_err() {
            return ExitCode::FAILURE;
        }
        count = count.wrapping_add(1);
    }
    match println!(rt; "{count} cases") {
        Ok(()) => ExitCode::SUCCESS,
        Err(_) => ExitCode::FAILURE,
    }
}
