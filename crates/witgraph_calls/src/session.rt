//! A graph that stays between calls.
ghost use Rattle.std.specs.Prelude.{◌≡◌, ◌⊎◌, ◌<◌, ◌≤◌, [], length, string_bytes};
ghost use Rattle.std.specs.Str.{IsUtf8};
ghost use Rattle.wit_json_commands.specs.Documents.{TellsFault};
ghost use Rattle.wit_resolve_graph.specs.State.{new_state};
ghost use Rattle.witgraph_calls.specs.Graphs.{Applies, text_of_state};
ghost use Rattle.witgraph_calls.specs.News.{LeavesTold, text_of_news, told_all, told_nothing};
ghost use Rattle.witgraph_calls.specs.Output.{HasFront};

use crate::graphs::{answer, whole_text};
use crate::news::{NOTHING, all_of, news_text};
use crate::output::put_text;
use crate::status::{
    CUT_SHORT, INPUT_NOT_UTF8, NO_GRAPH, NO_MEMORY, NOT_UNDERSTOOD, OUTPUT_TOO_SMALL, UNDERSTOOD,
};
use std::alloc::Global;
use wit_json::Told;
use wit_resolve_graph::Resolve;

/// A graph that stays, how much of it as it is now was told by `write_new`, and the text that the last `apply`, `write` or
/// `write_new` left. So a caller whose output has no room for it asks for the text again, and no command is carried out
/// twice.
#[derive(Drop)]
pub struct Session {
    pub resolve: Resolve,
    pub told: Told,
    pub reply: String,
}

impl Session {
    /// An empty graph, and an empty text. It takes no memory.
    pub fn new(alloc: Global) -> Session
        ensures graph { result.resolve ≡ new_state }
        ensures told { result.told ≡ told_nothing }
        ensures text { string_bytes result.reply ≡ [] }
    {
        Session {
            resolve: Resolve::new(alloc),
            told: NOTHING,
            reply: String::new(alloc),
        }
    }

    /// Carries out the commands of a JSON document on the graph. If the document has a graph of its own, that takes the place
    /// of the former one. The text is `{"replies": [..]}`, or the first fault of a document that isn't understood.
    ///
    /// The graph is as before unless the commands are carried out, to their end (`UNDERSTOOD`) or not (`CUT_SHORT`).
    pub fn apply(&mut self, alloc: Global, input: &[u8], needed: &mut usize) -> u32
        ensures status { result ≤ CUT_SHORT }
        ensures small { result ≡ OUTPUT_TOO_SMALL → ⊥ }
        ensures closed { result ≡ NO_GRAPH → ⊥ }
        ensures understood { result ≡ UNDERSTOOD → IsUtf8 input.now
            × Applies self.old.resolve input.now self.new.resolve (string_bytes self.new.reply) }
        ensures not_understood { result ≡ NOT_UNDERSTOOD
            → IsUtf8 input.now × TellsFault input.now (string_bytes self.new.reply) }
        ensures utf8 { result ≡ INPUT_NOT_UTF8 → IsUtf8 input.now → ⊥ }
        ensures memory { NO_MEMORY ≤ result → IsUtf8 input.now }
        ensures kept { NOT_UNDERSTOOD ≤ result → result ≤ NO_MEMORY
            → self.new.resolve ≡ self.old.resolve }
        ensures none { INPUT_NOT_UTF8 ≤ result → string_bytes self.new.reply ≡ [] }
        ensures needed { needed.new ≡ length (string_bytes self.new.reply) }
        ensures left { result ≡ UNDERSTOOD → LeavesTold input.now self.old.told self.new.told }
        ensures told { NOT_UNDERSTOOD ≤ result → result ≤ NO_MEMORY
            → self.new.told ≡ self.old.told }
        ensures nothing { result ≡ CUT_SHORT → self.new.told ≡ told_nothing }
    {
        let (status, reply) = answer(alloc, &mut self.resolve, &mut self.told, input);
        *needed = reply.len();
        self.reply = reply;
        status
    }

    /// Writes the graph with what stands beside it: the text is what a document may have under `"resolve"`.
    pub fn write(&mut self, alloc: Global, needed: &mut usize) -> u32
        ensures status { (result ≡ UNDERSTOOD) ⊎ (result ≡ NO_MEMORY) }
        ensures written { result ≡ UNDERSTOOD
            → string_bytes self.new.reply ≡ text_of_state self.new.resolve }
        ensures none { result ≡ NO_MEMORY → string_bytes self.new.reply ≡ [] }
        ensures kept { self.new.resolve ≡ self.old.resolve }
        ensures told { self.new.told ≡ self.old.told }
        ensures needed { needed.new ≡ length (string_bytes self.new.reply) }
    {
        let (status, text) = whole_text(alloc, &self.resolve);
        *needed = text.len();
        self.reply = text;
        status
    }

    /// Writes what is new of the graph with what stands beside it, or may be another since the last `write_new`: of each list
    /// what stands behind what was told and is still so, and all else. The first time that is everything.
    pub fn write_new(&mut self, alloc: Global, needed: &mut usize) -> u32
        ensures status { (result ≡ UNDERSTOOD) ⊎ (result ≡ NO_MEMORY) }
        ensures written { result ≡ UNDERSTOOD
            → string_bytes self.new.reply ≡ text_of_news self.old.told self.new.resolve }
        ensures all { result ≡ UNDERSTOOD → self.new.told ≡ told_all self.new.resolve }
        ensures none { result ≡ NO_MEMORY → string_bytes self.new.reply ≡ [] }
        ensures told { result ≡ NO_MEMORY → self.new.told ≡ self.old.told }
        ensures kept { self.new.resolve ≡ self.old.resolve }
        ensures needed { needed.new ≡ length (string_bytes self.new.reply) }
    {
        let (status, text) = news_text(alloc, self.told, &self.resolve);
        if status == UNDERSTOOD {
            self.told = all_of(&self.resolve);
        }
        *needed = text.len();
        self.reply = text;
        status
    }

    /// Copies the text to the front of the output where it has room.
    pub fn copy_reply(&self, output: &mut [u8], needed: &mut usize) -> u32
        ensures status { (result ≡ UNDERSTOOD) ⊎ (result ≡ OUTPUT_TOO_SMALL) }
        ensures copied { result ≡ UNDERSTOOD
            → HasFront (string_bytes self.now.reply) output.old output.new }
        ensures small { result ≡ OUTPUT_TOO_SMALL
            → (length output.old < length (string_bytes self.now.reply))
            × (output.new ≡ output.old) }
        ensures needed { needed.new ≡ length (string_bytes self.now.reply) }
    {
        put_text(true, self.reply.as_bytes(), output, needed)
    }
}
