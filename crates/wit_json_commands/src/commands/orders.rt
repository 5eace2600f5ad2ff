//! What a document asks, in order.
ghost use Rattle.std.specs.Prelude.{◌≡◌};
ghost use Rattle.json.specs.Json as json;
ghost use Rattle.json.specs.Value.{value_view};
ghost use Rattle.wit_json_commands.specs.Orders.{read_document, read_strict_document, is_change, read_order_by, read_order, read_request_by, read_request};
ghost use Rattle.wit_json_reading.specs.Reading.{Reads};

use super::changes::change_by;
use super::questions::{Question, question_by};
use json::Value;
use std::alloc::Global;
use wit_commands::Change;
use wit_data::Items;
use wit_json_graphs::ResolveParts;
use wit_json_layout::{Layout, known_part};
use wit_json_reading::{
    Expected, ReadError, ReadJson, in_member, instead_of, one_member, only, optional, required,
};

/// A change of a graph, or a question about it.
#[derive(Drop)]
pub enum Request {
    Change(Change),
    Ask(Question),
}

/// What is asked of a graph.
#[derive(Drop)]
pub enum Order {
    /// A change or a question.
    Request(Request),
    /// That the graph which these make goes into it.
    Merge(Items<Request>),
}

/// What a document asks, in order, of the graph with which it begins, or of an empty one.
#[derive(Drop)]
pub struct Document {
    pub resolve: Option<ResolveParts>,
    pub commands: Items<Order>,
}

/// Whether a change has this name.
fn is_change(name: &str) -> bool
    ensures { result ≡ is_change name.now }
{
    matches!(
        name,
        "add-feature"
            | "set-all-features"
            | "set-track-rule"
            | "push-groups"
            | "importize"
            | "exportize"
            | "semver"
    )
}

/// The change or the question of this name.
fn request_by(alloc: Global, name: &str, value: &Value<'_>) -> Result<Request, ReadError>
    ensures { Reads result (read_request_by name.now (value_view value.now)) }
{
    if is_change(name) {
        Ok(Request::Change(change_by(alloc, name, value)?))
    } else {
        Ok(Request::Ask(question_by(alloc, name, value)?))
    }
}

/// A request without parts.
#[tactic(auto, unfolding(crate::specs::Orders::read_request))]
fn plain_request(alloc: Global, word: &str) -> Result<Request, ReadError>
    ensures { Reads result (read_request (json.string word.now)) }
{
    match word {
        "package-order" => Ok(Request::Ask(Question::PackageOrder)),
        _ => instead_of(alloc, Expected::Command),
    }
}

impl ReadJson for Request {
    ghost reading = { read_request };

    #[tactic(auto, unfolding(crate::specs::Orders::read_request))]
    fn read_json(alloc: Global, value: &Value<'_>) -> Result<Request, ReadError> {
        if let Some(word) = value.as_str() {
            return plain_request(alloc, word);
        }
        match one_member(value) {
            Some((name, part)) => in_member(alloc, request_by(alloc, name, part), name),
            None => instead_of(alloc, Expected::Command),
        }
    }
}

/// The order of this name.
fn order_by(alloc: Global, name: &str, value: &Value<'_>) -> Result<Order, ReadError>
    ensures { Reads result (read_order_by name.now (value_view value.now)) }
{
    if name == "merge" {
        Ok(Order::Merge(ReadJson::read_json(alloc, value)?))
    } else {
        Ok(Order::Request(request_by(alloc, name, value)?))
    }
}

impl ReadJson for Order {
    ghost reading = { read_order };

    #[tactic(auto, unfolding(crate::specs::Orders::read_order))]
    fn read_json(alloc: Global, value: &Value<'_>) -> Result<Order, ReadError> {
        if let Some(word) = value.as_str() {
            return Ok(Order::Request(plain_request(alloc, word)?));
        }
        match one_member(value) {
            Some((name, part)) => in_member(alloc, order_by(alloc, name, part), name),
            None => instead_of(alloc, Expected::Command),
        }
    }
}

impl ReadJson for Document {
    ghost reading = { read_document };

    #[tactic(auto, unfolding(crate::specs::Orders::read_document))]
    fn read_json(alloc: Global, value: &Value<'_>) -> Result<Document, ReadError> {
        match optional(alloc, value, "lenient")? {
            Some(true) => strict_document(alloc, &known_part(alloc, Layout::Document, value)?),
            _ => strict_document(alloc, value),
        }
    }
}

/// A document without members that its layout hasn't.
#[tactic(auto, unfolding(crate::specs::Orders::read_strict_document))]
fn strict_document(alloc: Global, value: &Value<'_>) -> Result<Document, ReadError>
    ensures { Reads result (read_strict_document (value_view value.now)) }
{
    only(alloc, value, &["resolve", "commands", "lenient"])?;
    let resolve = optional(alloc, value, "resolve")?;
    let commands = required(alloc, value, "commands")?;
    Ok(Document { resolve, commands })
}
