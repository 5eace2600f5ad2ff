//! Runs each case of standard input.
//!
//! A case is a line `=== NAME` and the script below it, up to the next such line. What stands before the first case is
//! for the reader. The name of a case is written, and the answers of its script below it; of a case that has a line
//! `---` and what its script is to print behind it, only where it prints something else. A script without a newline at
//! its end has the `---` on its last line. The crate's file `stdin` holds the worked cases, with what they are to print.
#![tactic(auto)]

use std::alloc::Global;
use std::io;
use std::process::ExitCode;
use wit_script::{Watched, execute};

/// The script of a case, and what it is to print, where that is said.
fn parts(case: &str) -> (&str, Option<&str>) {
    match case.split_once("---\n") {
        Some((script, expected)) => (script, Some(expected)),
        None => (case, None),
    }
}

/// What a script prints; None where memory is wanting.
fn answers_to(alloc: Global, script: &str) -> Option<String> {
    let mut reader = Watched::new(script.as_bytes());
    let mut writer = Watched::new(Vec::new(alloc));
    execute(alloc, &mut reader, &mut writer).ok()?;
    String::from_utf8(writer.into_inner()).ok()
}

/// Whether a script prints what it is to print, where that is said.
fn is_as_expected(expected: Option<&str>, answers: &str) -> bool {
    match expected {
        Some(expected) => answers == expected,
        None => false,
    }
}

/// Status 0 where each case was run.
fn main(rt: HostRuntime) -> ExitCode {
    let Ok(text) = io::read_to_string(rt.alloc(), rt.reader()) else {
        return ExitCode::FAILURE;
    };
    for case in text.as_str().split("=== ").skip(1) {
        let Some((name, rest)) = case.split_once('\n') else {
            return ExitCode::FAILURE;
        };
        let (script, expected) = parts(rest);
        let Some(answers) = answers_to(rt.alloc(), script) else {
            return ExitCode::FAILURE;
        };
        if is_as_expected(expected, &answers) {
            continue;
        }
        if print!(rt; "=== {name}\n{answers}").is_err() {
            return ExitCode::FAILURE;
        }
    }
    ExitCode::SUCCESS
}
