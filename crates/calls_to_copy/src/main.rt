//! What a program does with the library, one use a module, each short enough to be copied. The program makes each use
//! once and prints what came of it.
#![tactic(auto)]

mod adding;
mod building;
mod calling;
mod importizing;
mod merging;
mod reading;
mod refusing;

use std::alloc::Global;
use std::process::ExitCode;
use wit_resolve_graph::{ResolveError, ResolveResult};

/// What each use gives, under a heading.
fn report(alloc: Global) -> ResolveResult<String> {
    let mut out = String::new(alloc);
    out.push_str("# two packages, of which one names the other\n")?;
    out.push_str(adding::two_packages(alloc)?.as_str())?;
    out.push_str("# two graphs as one\n")?;
    out.push_str(merging::two_graphs(alloc)?.as_str())?;
    out.push_str("# exports that become imports\n")?;
    out.push_str(importizing::exports_as_imports(alloc)?.as_str())?;
    out.push_str("# the imports of a world\n")?;
    out.push_str(reading::imports(alloc)?.as_str())?;
    out.push_str("# a package, where it has its shape\n")?;
    out.push_str(calling::a_package(alloc)?.as_str())?;
    out.push_str("# a refusal with its line\n")?;
    out.push_str(refusing::a_missing_package(alloc)?.as_str())?;
    Ok(out)
}

/// Status 0 where all was done and printed, else 1.
fn main(rt: HostRuntime) -> ExitCode {
    let Ok(out) = report(rt.alloc()) else {
        return ExitCode::FAILURE;
    };
    match print!(rt; "{out}") {
        Ok(()) => ExitCode::SUCCESS,
        Err(_) => ExitCode::FAILURE,
    }
}
