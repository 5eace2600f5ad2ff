//! Explains each case of standard input.
//!
//! A case is a line `=== NAME` and the script below it, up to the next such line. What stands before the first case is
//! for the reader. The name of a case is written, and what there is to explain of its script below it; of a case that has
//! a line `---` and what that is to be behind it, only where it is something else. The crate's file `stdin` holds the
//! worked cases, with what is told of them.
#![tactic(auto)]

use std::alloc::Global;
use std::io;
use std::process::ExitCode;
use wit_script_explain::explain_text;

/// The script of a case, and what is to be told of it, where that is said.
fn parts(case: &str) -> (&str, Option<&str>) {
    match case.split_once("---\n") {
        Some((script, expected)) => (script, Some(expected)),
        None => (case, None),
    }
}

/// What is told of a script; None where memory is wanting.
fn told_of(alloc: Global, script: &str) -> Option<String> {
    match explain_text(alloc, script) {
        Ok((_, told)) => Some(told),
        Err(_) => None,
    }
}

/// Whether that is what is to be told, where it is said.
fn is_as_expected(expected: Option<&str>, told: &str) -> bool {
    match expected {
        Some(expected) => told == expected,
        None => false,
    }
}

/// Status 0 where each case was explained.
fn main(rt: HostRuntime) -> ExitCode {
    let Ok(text) = io::read_to_string(rt.alloc(), rt.reader()) else {
        return ExitCode::FAILURE;
    };
    for case in text.as_str().split("=== ").skip(1) {
        let Some((name, rest)) = case.split_once('\n') else {
            return ExitCode::FAILURE;
        };
        let (script, expected) = parts(rest);
        let Some(told) = told_of(rt.alloc(), script) else {
            return ExitCode::FAILURE;
        };
        if is_as_expected(expected, &told) {
            continue;
        }
        if print!(rt; "=== {name}\n{told}").is_err() {
            return ExitCode::FAILURE;
        }
    }
    ExitCode::SUCCESS
}
