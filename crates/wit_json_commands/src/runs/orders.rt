//! What a document asks, carried out in order.
ghost use Rattle.std.specs.Prelude.{IfOk};
ghost use Rattle.wit_json_commands.specs.declared.commands.orders.Order.TheVariants as order;
ghost use Rattle.wit_json_commands.specs.Runs.{AnswersRequest, AnswersEach, Responds, RespondsEach};

use super::changes::{answer_change, answer_command};
use crate::commands::{Order, Request};
use crate::questions::answer_question;
use crate::replies::{Answer, Response};
use std::alloc::Global;
use wit_resolve_graph::{Command, Items, Resolve, ResolveResult};

/// Carries out what is asked, and answers each. The only refusal is want of memory outside a command (28).
pub fn responses_to(
    alloc: Global,
    resolve: &mut Resolve,
    orders: Items<Order>,
) -> ResolveResult<Items<Response>>
    ensures { IfOk result (λ replies. RespondsEach resolve.old orders replies resolve.new) }
{
    let mut replies = Items::new(alloc);
    for order in orders.into_vec() {
        let reply = response_to(alloc, resolve, order)?;
        replies.push(reply)?;
    }
    Ok(replies)
}

/// Carries out an order, and answers it.
fn response_to(alloc: Global, resolve: &mut Resolve, order: Order) -> ResolveResult<Response>
    ensures { IfOk result (λ reply. Responds resolve.old order reply resolve.new) }
{
    match order {
        Order::Request(request) => Ok(Response::Answer(answer_to(alloc, resolve, request)?)),
        Order::Merge(requests) => merge(alloc, resolve, requests),
    }
}

/// Carries out requests on an empty graph, and merges that into this one.
fn merge(alloc: Global, resolve: &mut Resolve, requests: Items<Request>) -> ResolveResult<Response>
    ensures { IfOk result (λ reply. Responds resolve.old (order.Merge requests) reply resolve.new) }
{
    let mut other = Resolve::new(alloc);
    let replies = answers_to(alloc, &mut other, requests)?;
    let reply = answer_command(alloc, resolve, Command::Merge(other), "merge")?;
    Ok(Response::Merge { replies, reply })
}

/// Carries out requests, and answers each.
fn answers_to(
    alloc: Global,
    resolve: &mut Resolve,
    requests: Items<Request>,
) -> ResolveResult<Items<Answer>>
    ensures { IfOk result (λ answers. AnswersEach resolve.old requests answers resolve.new) }
{
    let mut answers = Items::new(alloc);
    for request in requests.into_vec() {
        let answer = answer_to(alloc, resolve, request)?;
        answers.push(answer)?;
    }
    Ok(answers)
}

/// Carries out a request, and answers it.
fn answer_to(alloc: Global, resolve: &mut Resolve, request: Request) -> ResolveResult<Answer>
    ensures { IfOk result (λ answer. AnswersRequest resolve.old request answer resolve.new) }
{
    match request {
        Request::Change(change) => answer_change(alloc, resolve, change),
        Request::Ask(question) => {
            let (graph, files) = (resolve.graph(), resolve.source_map());
            Ok(answer_question(alloc, graph, files, &question)?)
        }
    }
}
