//! Runs a script of the language of witgraph from standard input, and draws the graph that is there at its end: it writes
//! a picture in DOT, the language of Graphviz, to standard output.
//!
//! A package is a frame with its name, which holds its interfaces, round, and its worlds, with the functions and types
//! that they import and export under their names. An arrow leads from an interface to each that it uses, and from a world
//! to the interfaces that it imports and exports; its colour tells which, as the line below the picture says. An import
//! that elaboration added has a colour of its own: see `Listing` for what that is. Below stands what the same run tells
//! of the script, as `explain_text` does: its refusals, and what isn't there, each with its lines.
//!
//! Of a script that isn't understood there is no picture, but the line at which it isn't, and why.
#![tactic(auto)]

ghost use Rattle.std.specs.Prelude.{IfOk, string_bytes};
ghost use Rattle.witgraph_dot.specs.Picture.{Draws};

mod arrow;
mod bundles;
mod choice;
mod drawing;
mod effect;
mod entries;
mod frame;
mod labels;
mod listing;
mod names;
mod package_lines;
mod picture;
mod scene;
mod sets;
mod shown;
mod stage;
mod texts;
mod track;

use crate::choice::Choice;
use crate::picture::draw;
use crate::stage::Stage;
use std::alloc::{AllocError, Global};
use std::io;
use std::process::ExitCode;
use wit_resolve_graph::{ResolveError, ResolveResult};
use wit_script::{ReadFault, read_script};
use wit_script_explain::{explain_misread, script_lines};
use wit_streams::{Asked, StreamFault, Watched, exit_status, read_all, write_all};

/// How the program is called.
const USAGE: &str = "usage: witgraph_dot < SCRIPT

Carries out the commands of a script, and draws its last graph for Graphviz.
docs/SCRIPT.md has the commands; docs/PICTURES.md has what comments choose.

  --help      prints this
  --version   prints the version";

/// The version of this program.
const VERSION: &str = "0.1.0";

/// Whether a script is understood, and its picture, or why it isn't. The only refusal is want of memory, in a command or
/// outside.
fn answer(alloc: Global, script: &str) -> ResolveResult<(bool, String)>
    ensures { IfOk result (λ answer. Draws script.now answer.0 (string_bytes answer.1)) }
{
    let lines = script_lines(alloc, script)?;
    match read_script(alloc, script) {
        Ok(commands) => {
            let (stage, note) = Stage::after(alloc, &lines, commands)?;
            let choice = Choice::of_script(alloc, script)?;
            let graph = &stage.desk.first.resolve;
            Ok((true, draw(alloc, graph, &stage.first, &note, &choice)?))
        }
        Err(ReadFault::NotUnderstood { line }) => Ok((
            false,
            explain_misread(alloc, &lines, line)?,
        )),
        Err(ReadFault::OutOfMemory) => Err(ResolveError::from(AllocError)),
    }
}

/// Draws the script of standard input, and answers whether it is understood.
fn draw_input(rt: &HostRuntime) -> Result<bool, StreamFault> {
    let mut reader = Watched::new(rt.reader());
    let bytes = read_all(rt.alloc(), &mut reader)?;
    let Ok(script) = str::from_utf8(&bytes) else {
        return Err(StreamFault::NotUtf8);
    };
    let Ok((is_understood, text)) = answer(rt.alloc(), script) else {
        return Err(StreamFault::OutOfMemory);
    };
    let mut writer = Watched::new(io::writer(rt));
    write_all(&mut writer, &text)?;
    Ok(is_understood)
}

/// Why nothing, or not all, is written.
fn reason(fault: StreamFault) -> &'static str {
    match fault {
        StreamFault::Read => "the script can't be read",
        StreamFault::Write => "the picture can't be written",
        StreamFault::NotUtf8 => "the script isn't UTF-8",
        StreamFault::OutOfMemory => "out of memory: nothing is drawn",
    }
}

/// Draws the script of standard input. The status is 0 if it was understood and the picture is written, else 1. Standard
/// error says why nothing, or not all, is written.
fn carry_out(rt: &HostRuntime) -> ExitCode {
    let drawn = draw_input(rt);
    if let Err(fault) = drawn {
        let _is_told = eprintln!(rt; "witgraph_dot: {}", reason(fault));
    }
    ExitCode::from(exit_status(drawn))
}

/// The status of what was printed.
fn printed_status(printed: io::Result<()>) -> ExitCode {
    match printed {
        Ok(()) => ExitCode::SUCCESS,
        Err(_) => ExitCode::FAILURE,
    }
}

fn main(rt: HostRuntime) -> ExitCode {
    match Asked::by(&rt) {
        Asked::Work => carry_out(&rt),
        Asked::Help => printed_status(println!(rt; "{USAGE}")),
        Asked::Version => printed_status(println!(rt; "witgraph_dot {VERSION}")),
        Asked::Unknown => {
            let _is_told = eprintln!(rt; "{USAGE}");
            ExitCode::from(2)
        }
    }
}
