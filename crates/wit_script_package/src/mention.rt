//! What a line of a package mentions of other packages.
ghost use Rattle.std.specs.Option.{option_copied, option_to_list};
ghost use Rattle.std.specs.List.{list_any};
ghost use Rattle.std.specs.Prelude.{◌≡◌, ◌==◌, ◌||◌, ◌&&◌, not, slice_get, IsTrue};
ghost use Rattle.wit_script_lines.specs.Line.{tokens_of};
ghost use Rattle.wit_script_lines.specs.Statement.{statement_of};
ghost use Rattle.wit_script_package.specs.Mention.{mentions_of, path_mention};
ghost use Rattle.wit_script_package.specs.steps.Mention.{MentionsNothing, takes_no_path, takes_path};
ghost use Rattle.wit_script_package.specs.steps.Mentioning.{fits};

use wit_data::{AstItem, PackageName, ParsedUsePath, Span, Stability, Text};
use wit_script_lines::PackageLine;

/// What a line takes a name of another package for.
#[derive(Drop)]
pub enum MentionKind {
    /// For an interface.
    Interface,
    /// For an interface with a type of this name.
    Type_(Text),
    /// For a world.
    World,
}

/// A mention of an interface or a world of another package, by a line with this gate that stands here.
#[derive(Drop)]
pub struct Mention {
    pub parent: PackageName,
    pub name: Text,
    pub kind: MentionKind,
    pub gate: Stability,
    pub span: Span,
}

impl MentionKind {
    /// Whether it takes an item for what it is, an interface or a world.
    pub fn fits(&self, item: &AstItem) -> bool
        ensures { result ≡ fits self.now item.now }
    {
        match self {
            MentionKind::Interface | MentionKind::Type_(_) => matches!(item, AstItem::Interface(_)),
            MentionKind::World => matches!(item, AstItem::World(_)),
        }
    }
}

/// What a path mentions: a name of the same package is no mention.
fn path_mention(
    path: ParsedUsePath,
    kind: MentionKind,
    gate: Stability,
    span: Span,
) -> Option<Mention>
    ensures { option_to_list result ≡ path_mention path kind gate span }
{
    match path {
        ParsedUsePath::Name(_) => None,
        ParsedUsePath::Package(parent, name) => Some(Mention {
            parent,
            name,
            kind,
            gate,
            span,
        }),
    }
}

/// What a line mentions of another package, which has this gate and stands here, or None where it
/// mentions nothing.
pub fn mention_of(said: PackageLine, gate: Stability, span: Span) -> Option<Mention>
    ensures { option_to_list result ≡ mentions_of said gate span }
{
    match said {
        PackageLine::Use { path, name, .. } => {
            path_mention(path, MentionKind::Type_(name), gate, span)
        }
        PackageLine::Import { path, .. } => path_mention(path, MentionKind::Interface, gate, span),
        PackageLine::Export { path, .. } => path_mention(path, MentionKind::Interface, gate, span),
        PackageLine::Include { path, .. } => path_mention(path, MentionKind::World, gate, span),
        _ => None,
    }
}

/// Whether it is known before a line is read that it mentions nothing of another package and is a line
/// of its package, where it is understood: its first token is one of lines without a path, or one of
/// lines with a path and it has no `:`. Where the answer is false, reading the line tells.
pub fn mentions_nothing(line: &str) -> bool
    ensures { IsTrue result → MentionsNothing (statement_of line.now) }
{
    match first_token(line) {
        Some(word) => has_no_foreign_path(word, line),
        None => false,
    }
}

/// The first token of a line, or None where it has none.
fn first_token(line: &str) -> Option<&str>
    ensures { option_copied result ≡ slice_get (tokens_of line.now) 0 }
{
    for part in line.split(' ') {
        if !part.is_empty() {
            return Some(part);
        }
    }
    None
}

/// Whether a line with this first token has no path, or none with a `:`.
fn has_no_foreign_path(word: &str, line: &str) -> bool
    ensures { result
        ≡ (takes_no_path word.now
        || (takes_path word.now && not (list_any (λ b. b == 58) line.now))) }
{
    takes_no_path(word) || takes_path(word) && !line.as_bytes().contains(&b':')
}

/// Whether this is a first token of lines without a path.
fn takes_no_path(word: &str) -> bool
    ensures { result ≡ takes_no_path word.now }
{
    match word {
        "interface" => true,
        "world" => true,
        "type" => true,
        "record" => true,
        "resource" => true,
        "func" => true,
        "import-func" => true,
        "export-func" => true,
        _ => false,
    }
}

/// Whether this is a first token of lines with a path.
fn takes_path(word: &str) -> bool
    ensures { result ≡ takes_path word.now }
{
    match word {
        "use" => true,
        "import" => true,
        "export" => true,
        "include" => true,
        _ => false,
    }
}
