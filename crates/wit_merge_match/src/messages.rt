//! The messages of mismatches: what differs, and where.
ghost use Rattle.std.specs.Prelude.{◌≡◌, ◌∷◌, [], IfOk, string_bytes};
ghost use Rattle.wit_graph_data.specs.IdText.{key_text};
ghost use Rattle.wit_merge_spec.specs.MismatchText.{entry_link, linked, part_links};
ghost use Rattle.wit_merge_spec.specs.steps.Parts.{type_link, entry_count_text, absent_text};

use std::alloc::{AllocError, Global};
use wit_data::{PackageName, WorldKey};
use wit_graph_data::Graph;

/// What differs in an interface or a world of a package.
pub(crate) fn in_part(
    alloc: Global,
    home: &PackageName,
    sort: &str,
    name: &str,
    text: &str,
) -> Result<String, AllocError>
    ensures { IfOk result (λ message.
        string_bytes message ≡ linked (part_links home.now sort.now name.now) text.now) }
{
    format!(in alloc;
        "failed to merge package `{home}` into existing copy: failed to merge {sort} `{name}`: {text}"
    )
}

/// What differs in an entry; word is `import` or `export`.
pub(crate) fn in_entry(
    alloc: Global,
    word: &str,
    key: &str,
    text: &str,
) -> Result<String, AllocError>
    ensures { IfOk result
        (λ message. string_bytes message ≡ linked (entry_link word.now key.now ∷ []) text.now) }
{
    format!(in alloc; "{word} `{key}` didn't match target world: {text}")
}

/// What differs in a type.
pub(crate) fn in_type(alloc: Global, name: &str, text: &str) -> Result<String, AllocError>
    ensures { IfOk result
        (λ message. string_bytes message ≡ linked (type_link name.now ∷ []) text.now) }
{
    format!(in alloc; "mismatch in type `{name}`: {text}")
}

/// There is no such entry.
pub(crate) fn absent(alloc: Global, word: &str, key: &str) -> Result<String, AllocError>
    ensures { IfOk result (λ message. string_bytes message ≡ absent_text word.now key.now) }
{
    format!(in alloc; "{word} `{key}` not found in target world")
}

/// There aren't as many entries.
pub(crate) fn other_count(alloc: Global, word: &str) -> Result<String, AllocError>
    ensures { IfOk result (λ message. string_bytes message ≡ entry_count_text word.now) }
{
    format!(in alloc; "world contains different number of {word}s than expected")
}

/// What names a key of a graph.
pub(crate) fn key_text(alloc: Global, graph: &Graph, key: &WorldKey) -> Result<String, AllocError>
    ensures { IfOk result
        (λ text. string_bytes text ≡ key_text graph.now.packages graph.now.interfaces key.now) }
{
    match graph.name_world_key(alloc, key) {
        Ok(text) => Ok(text),
        Err(_) => Err(AllocError),
    }
}
