//! What interfaces reach, by rows of bits, and all worlds elaborated.
ghost use Rattle.std.specs.Prelude.{◌<◌, length};
ghost use Rattle.wit_elaboration.specs.Valid.{IsValid};

use crate::marks::{bare, call, copy_of, done, tell, tell_made};
use crate::states::tell_graph;
use std::alloc::Global;
use wit_graph::rows::{Closure, elaborate_all, or_into};
use wit_graph::{Graph, are_uses_acyclic};

/// Calls on a graph, or on a copy of it.
pub fn close(rt: &impl Print, alloc: Global, graph: &Graph) -> Option<()>
    requires valid { IsValid graph.now }
{
    elaborate_worlds(rt, alloc, graph)?;
    make_closure(rt, alloc, graph)
}

fn elaborate_worlds(rt: &impl Print, alloc: Global, graph: &Graph) -> Option<()>
    requires valid { IsValid graph.now }
{
    let mut copy = copy_of(graph)?;
    call(rt, "elaborate_all");
    let answer = elaborate_all(alloc, &mut copy);
    tell_graph(rt, answer, &copy)
}

fn make_closure(rt: &impl Print, alloc: Global, graph: &Graph) -> Option<()>
    requires valid { IsValid graph.now }
{
    call(rt, "are_uses_acyclic");
    tell_made(rt, are_uses_acyclic(alloc, graph))?;
    call(rt, "Closure::of");
    tell(rt, done(Closure::of(alloc, graph)))?;
    let mut closure = Closure::of(alloc, graph).ok()?;
    match closure.interfaces().checked_sub(1) {
        Some(last) => ask_closure(rt, &mut closure, last),
        None => Some(()),
    }
}

/// Whether the last interface reaches the first, and whether the first reaches it.
fn ask_closure(rt: &impl Print, closure: &mut Closure, last: usize) -> Option<()>
    requires { last < length closure.old }
{
    bare(rt, "reaches, interfaces and joins");
    let (down, up) = (closure.reaches(last, 0), closure.reaches(0, last));
    tell(rt, Ok((down, up, closure.interfaces(), closure.joins())))
}

/// Rows of one vector and a word.
pub fn join_rows(rt: &impl Print) -> Option<()> {
    let mut into: [u64; 5] = [1, 2, 4, 8, 16];
    let from: [u64; 5] = [16, 8, 4, 2, 1];
    bare(rt, "or_into");
    or_into(&mut into, &from);
    tell(rt, Ok(into))
}
