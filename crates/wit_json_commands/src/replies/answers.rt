//! Answers to commands.
ghost use Rattle.std.specs.Prelude.{◌≡◌, ◌++◌, OnOk, codes};
ghost use Rattle.json.specs.Tree.{json_tokens};
ghost use Rattle.wit_json.specs.steps.Members.{Adds};
ghost use Rattle.wit_json_commands.specs.Answers.{json_of_answer, json_of_response, unmatched_member};
ghost use Rattle.wit_json.specs.Values.{json_of_number, list_of, member, object};
ghost use Rattle.wit_json_commands.specs.RefusalJson.{json_of_refused};

use super::core_names::CoreNames;
use super::error_fields::write_fields;
use super::file_places::FilePlace;
use super::refusals::WayStep;
use super::remaps::write_remap;
use super::unshaped::Unshaped;
use std::alloc::AllocError;
use wit_data::{InterfaceId, Items, PackageId, PackageName, Text, TypeId, WorldId};
use wit_graph_data::ResolveError;
use wit_json::{JsonText, WriteJson};
use wit_remap::Remap;

/// What is refused, and how it is told.
#[derive(Drop)]
pub struct Refusal {
    pub error: ResolveError,
    /// Where the error is, those of its places that are in files. Of a package that is defined twice there are two.
    pub places: Items<FilePlace>,
    /// How what the error names leads back to itself, or past what isn't exported to what is; empty of other errors.
    pub way: Items<WayStep>,
    /// The known package whose name is nearest to the one that isn't there, where one is near; None of other errors.
    pub nearest: Option<PackageName>,
    /// The text of the error with the lines of its places and of its way, and with what was asked.
    pub rendered: Text,
}

/// The answer to a change or a question.
#[derive(Drop)]
pub enum Answer {
    /// It is carried out.
    Done,
    /// It is carried out on this world, no import of which had the keys that are told.
    ChangedWorld {
        world: WorldId,
        unmatched: Items<Text>,
    },
    /// The id of the main group's main package.
    Pushed(PackageId),
    /// Where the things of the other graph stand now.
    Merged(Remap),
    /// There is no package of that name.
    NoPackage,
    /// The package has no world of that name.
    NoWorld,
    /// A package that was to be added hasn't its shape, and nothing is added.
    NotShaped(Unshaped),
    /// What a question names isn't there.
    NotFound,
    /// It is refused.
    Refused(Refusal),
    World(WorldId),
    Packages(Items<PackageId>),
    Interfaces(Items<InterfaceId>),
    Types(Items<TypeId>),
    Text(Text),
    CoreNames(CoreNames),
}

/// The answer to what is asked of a graph.
#[derive(Drop)]
pub enum Response {
    /// The answer to a change or a question.
    Answer(Answer),
    /// The answers to what made another graph, and then to its merge.
    Merge {
        replies: Items<Answer>,
        reply: Answer,
    },
}

impl WriteJson for Refusal {
    ghost json = { json_of_refused };

    fn write_json(&self, out: &mut JsonText) -> Result<(), AllocError> {
        out.begin_object()?;
        out.member("error", &self.error)?;
        write_fields(out, self.error.kind())?;
        out.member("places", &self.places)?;
        out.member("way", &self.way)?;
        out.optional("nearest", &self.nearest)?;
        out.member("rendered", &self.rendered)?;
        out.end_object()
    }
}

impl WriteJson for Answer {
    ghost json = { json_of_answer };

    fn write_json(&self, out: &mut JsonText) -> Result<(), AllocError> {
        match self {
            Answer::Done => out.string("done"),
            Answer::ChangedWorld { world, unmatched } => {
                out.begin_tagged("done")?;
                write_changed(out, *world, unmatched)?;
                out.end_object()
            }
            Answer::Pushed(id) => out.tagged("pushed", id),
            Answer::Merged(remap) => {
                out.begin_tagged("merged")?;
                write_remap(out, remap)?;
                out.end_object()
            }
            Answer::NoPackage => out.string("no-package"),
            Answer::NoWorld => out.string("no-world"),
            Answer::NotShaped(unshaped) => out.tagged("not-shaped", unshaped),
            Answer::NotFound => out.string("not-found"),
            Answer::Refused(refusal) => out.tagged("refused", refusal),
            Answer::World(id) => out.tagged("world", id),
            Answer::Packages(ids) => out.tagged("packages", ids),
            Answer::Interfaces(ids) => out.tagged("interfaces", ids),
            Answer::Types(ids) => out.tagged("types", ids),
            Answer::Text(text) => out.tagged("text", text),
            Answer::CoreNames(names) => out.tagged("core-names", names),
        }
    }
}

/// Writes a world that a command changed, and the keys that no import of it had.
fn write_changed(
    out: &mut JsonText,
    world: WorldId,
    unmatched: &Items<Text>,
) -> Result<(), AllocError>
    ensures { OnOk result (out.new
        ≡ out.old
        ++ json_tokens
        (object
        (member (codes "world") (json_of_number world) ++ unmatched_member unmatched.now))) }
{
    out.begin_object()?;
    out.member("world", &world)?;
    write_unmatched(out, unmatched)?;
    out.end_object()
}

/// Writes the keys that no import had, where there are some.
fn write_unmatched(out: &mut JsonText, unmatched: &Items<Text>) -> Result<(), AllocError>
    ensures { OnOk result (Adds out.old out.new (unmatched_member unmatched.now)) }
{
    if unmatched.is_empty() {
        Ok(())
    } else {
        out.member("unmatched", unmatched)
    }
}

/// Writes the answers to what made another graph, and to its merge.
fn write_merge(
    out: &mut JsonText,
    replies: &Items<Answer>,
    reply: &Answer,
) -> Result<(), AllocError>
    ensures { OnOk result (out.new
        ≡ out.old
        ++ json_tokens
        (object (member (codes "replies") (list_of json_of_answer replies.now)
        ++ member (codes "reply") (json_of_answer reply.now)))) }
{
    out.begin_object()?;
    out.member("replies", replies)?;
    out.member("reply", reply)?;
    out.end_object()
}

impl WriteJson for Response {
    ghost json = { json_of_response };

    fn write_json(&self, out: &mut JsonText) -> Result<(), AllocError> {
        match self {
            Response::Answer(answer) => answer.write_json(out),
            Response::Merge { replies, reply } => {
                out.begin_tagged("merge")?;
                write_merge(out, replies, reply)?;
                out.end_object()
            }
        }
    }
}
