//! Carries out a JSON document of commands from standard input, and writes the document that comes out to standard output.
#![tactic(auto)]

use std::io;
use std::process::ExitCode;
use wit_json_commands::execute;
use wit_streams::{Asked, StreamFault, Watched, exit_status};

/// How the program is called.
const USAGE: &str = "usage: witgraph_json < DOCUMENT

Carries out the commands of a JSON document, and writes the replies and the graph.
docs/JSON.md has both documents; tools/wit2json.py writes one of WIT.

  --help      prints this
  --version   prints the version";

/// The version of this program.
const VERSION: &str = "0.1.0";

/// Why nothing, or not all, is written.
fn reason(fault: StreamFault) -> &'static str {
    match fault {
        StreamFault::Read => "the document can't be read",
        StreamFault::Write => "the output can't be written",
        StreamFault::NotUtf8 => "the document isn't UTF-8",
        StreamFault::OutOfMemory => "out of memory",
    }
}

/// Carries out the document of standard input. The status is 0 if it was understood and the answer is written, else 1.
/// Standard error says why nothing, or not all, is written.
fn carry_out(rt: &HostRuntime) -> ExitCode {
    let mut reader = Watched::new(rt.reader());
    let mut writer = Watched::new(io::writer(rt));
    let executed = execute(rt.alloc(), &mut reader, &mut writer);
    if let Err(fault) = executed {
        let _is_told = eprintln!(rt; "witgraph_json: {}", reason(fault));
    }
    ExitCode::from(exit_status(executed))
}

/// The status of what was printed.
fn status(printed: io::Result<()>) -> ExitCode {
    match printed {
        Ok(()) => ExitCode::SUCCESS,
        Err(_) => ExitCode::FAILURE,
    }
}

fn main(rt: HostRuntime) -> ExitCode {
    match Asked::by(&rt) {
        Asked::Work => carry_out(&rt),
        Asked::Help => status(println!(rt; "{USAGE}")),
        Asked::Version => status(println!(rt; "witgraph_json {VERSION}")),
        Asked::Unknown => {
            let _is_told = eprintln!(rt; "{USAGE}");
            ExitCode::from(2)
        }
    }
}
