//! Answers that are too long to be written.
ghost use Rattle.std.specs.Prelude.{◌≡◌, IfOk, IsTrue, true};
ghost use Rattle.wit_json_commands.specs.Runs.{RespondAsWell};
ghost use Rattle.wit_json_commands.specs.steps.Withdrawn.{Withdraws, WithdrawsAll, WithdrawsEach, WithdrawsIn, lists_types};

use crate::replies::{Answer, Response, refused};
use std::alloc::{AllocError, Global};
use wit_data::{Items, SourceMap};
use wit_graph_data::{Graph, ResolveError};

/// The replies with the refusal of memory (28) in the place of each long answer, for a caller that had no memory to write
/// them. An answer is long if it lists more types than the graph has. The call fails if no answer is long, and if there is
/// no memory for the refusals either.
pub fn without_long_answers(
    alloc: Global,
    graph: &Graph,
    files: &SourceMap,
    replies: Items<Response>,
) -> Result<Items<Response>, AllocError>
    ensures ok { IfOk result (λ left. RespondAsWell replies left) }
{
    if replies.iter().any(|reply| has_long_answer(graph, reply)) {
        withdrawn_all(alloc, graph, files, replies)
    } else {
        Err(AllocError)
    }
}

/// The replies without their long answers.
fn withdrawn_all(
    alloc: Global,
    graph: &Graph,
    files: &SourceMap,
    replies: Items<Response>,
) -> Result<Items<Response>, AllocError>
    ensures { IfOk result (λ left. WithdrawsAll replies left) }
{
    let mut left = Items::new(alloc);
    for reply in replies.into_vec() {
        let reply = withdrawn_in(alloc, graph, files, reply)?;
        left.push(reply)?;
    }
    Ok(left)
}

/// Whether a reply has a long answer.
fn has_long_answer(graph: &Graph, reply: &Response) -> bool {
    match reply {
        Response::Answer(answer) => is_long(graph, answer),
        Response::Merge { replies, .. } => replies.iter().any(|answer| is_long(graph, answer)),
    }
}

/// Whether an answer lists more types than the graph has: it has a type once for each way to it.
fn is_long(graph: &Graph, answer: &Answer) -> bool
    ensures { IsTrue result → lists_types answer.now ≡ true }
{
    match answer {
        Answer::Types(ids) => ids.len() > graph.types.len(),
        _ => false,
    }
}

/// A reply without its long answers.
fn withdrawn_in(
    alloc: Global,
    graph: &Graph,
    files: &SourceMap,
    reply: Response,
) -> Result<Response, AllocError>
    ensures { IfOk result (λ left. WithdrawsIn reply left) }
{
    match reply {
        Response::Answer(answer) => Ok(Response::Answer(withdrawn(alloc, graph, files, answer)?)),
        Response::Merge { replies, reply } => {
            let replies = withdrawn_each(alloc, graph, files, replies)?;
            Ok(Response::Merge { replies, reply })
        }
    }
}

/// Answers with the refusal of memory in the place of each long one.
fn withdrawn_each(
    alloc: Global,
    graph: &Graph,
    files: &SourceMap,
    answers: Items<Answer>,
) -> Result<Items<Answer>, AllocError>
    ensures { IfOk result (λ left. WithdrawsEach answers left) }
{
    let mut left = Items::new(alloc);
    for answer in answers.into_vec() {
        let answer = withdrawn(alloc, graph, files, answer)?;
        left.push(answer)?;
    }
    Ok(left)
}

/// An answer, or the refusal of memory in the place of a long one.
fn withdrawn(
    alloc: Global,
    graph: &Graph,
    files: &SourceMap,
    answer: Answer,
) -> Result<Answer, AllocError>
    ensures { IfOk result (λ left. Withdraws answer left) }
{
    if is_long(graph, &answer) {
        drop(answer);
        let error = ResolveError::from(AllocError);
        refused(alloc, graph, files, "futures-and-streams", &[], error)
    } else {
        Ok(answer)
    }
}
