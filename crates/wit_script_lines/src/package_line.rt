//! What a line of a package says by its tokens alone.
ghost use Rattle.std.specs.Prelude.{◌≡◌, map};
ghost use Rattle.wit_script_lines.specs.steps.ReadResult.{IsRead};
ghost use Rattle.wit_script_lines.specs.PackageLine.{each_of, include_line_of, package_line_by, record_line_of, rename_of, type_line_of, use_line_of, use_line_with};
ghost use Rattle.wit_script_lines.specs.Token.{split_at};
ghost use Rattle.wit_script_lines.specs.steps.LineWords.{line_word, word_text};
ghost use Rattle.wit_script_lines.specs.steps.Parts.{named_line_of, signed_line_of, entry_by, entry_tokens};

use crate::fault::LineFault;
use crate::signature::{Signature, TypedName, read_signature, read_typed_names};
use crate::token::{read_part, read_path};
use crate::type_text::{TypeText, read_type_text};
use std::alloc::Global;
use wit_data::{IncludeName, Items, ParsedUsePath, Text};

/// A line of a package after its first, without its gate.
#[derive(Drop)]
pub enum PackageLine {
    /// Begins an interface.
    Interface(Text),
    /// Begins a world.
    World(Text),
    /// Names a type: another name of a type, or the type that a text makes.
    Type_ {
        name: Text,
        ty: TypeText,
    },
    /// Names a record of these fields.
    Record {
        name: Text,
        fields: Items<TypedName>,
    },
    /// Names a resource.
    Resource(Text),
    /// Names a type of an interface by another name, or by the same.
    Use {
        path: ParsedUsePath,
        name: Text,
        new: Text,
    },
    /// Adds a function to the interface.
    Function(Signature),
    /// Imports an interface into the world, under its own key or under a label.
    Import {
        label: Option<Text>,
        path: ParsedUsePath,
    },
    /// Exports an interface from the world, under its own key or under a label.
    Export {
        label: Option<Text>,
        path: ParsedUsePath,
    },
    /// Imports a function into the world.
    ImportFunction(Signature),
    /// Exports a function from the world.
    ExportFunction(Signature),
    /// Includes a world in the world, with other names for some of its labels.
    Include {
        path: ParsedUsePath,
        names: Items<IncludeName>,
    },
}

/// The first token of a line of a package.
#[derive(Clone, Copy)]
pub enum LineWord {
    Interface,
    World,
    Type_,
    Record,
    Resource,
    Use,
    Function,
    Import,
    Export,
    ImportFunction,
    ExportFunction,
    Include,
}

/// The word that a token is, or None where no line of a package begins with it. Those with which most
/// lines begin come first.
pub fn line_word(token: &str) -> Option<LineWord>
    ensures { result ≡ line_word token.now }
{
    match token {
        "use" => Some(LineWord::Use),
        "type" => Some(LineWord::Type_),
        "func" => Some(LineWord::Function),
        "interface" => Some(LineWord::Interface),
        "import" => Some(LineWord::Import),
        "export" => Some(LineWord::Export),
        "world" => Some(LineWord::World),
        "record" => Some(LineWord::Record),
        "resource" => Some(LineWord::Resource),
        "include" => Some(LineWord::Include),
        "import-func" => Some(LineWord::ImportFunction),
        "export-func" => Some(LineWord::ExportFunction),
        _ => None,
    }
}

/// What a line of a package says by its first token and its arguments without the gate. Not understood
/// where no line of a package takes these arguments. Else only want of memory is an error.
pub fn read_package_line(
    alloc: Global,
    word: LineWord,
    arguments: &[&str],
) -> Result<PackageLine, LineFault>
    ensures { IsRead (package_line_by (word_text word) (map (λ t. t.now) arguments.now)) result }
{
    match word {
        LineWord::Interface => Ok(PackageLine::Interface(named_line(alloc, arguments)?)),
        LineWord::World => Ok(PackageLine::World(named_line(alloc, arguments)?)),
        LineWord::Type_ => type_line(alloc, arguments),
        LineWord::Record => record_line(alloc, arguments),
        LineWord::Resource => Ok(PackageLine::Resource(named_line(alloc, arguments)?)),
        LineWord::Use => use_line(alloc, arguments),
        LineWord::Function => Ok(PackageLine::Function(signed_line(alloc, arguments)?)),
        LineWord::Import => {
            let (label, path) = entry_line(alloc, arguments)?;
            Ok(PackageLine::Import { label, path })
        }
        LineWord::Export => {
            let (label, path) = entry_line(alloc, arguments)?;
            Ok(PackageLine::Export { label, path })
        }
        LineWord::ImportFunction => Ok(PackageLine::ImportFunction(signed_line(alloc, arguments)?)),
        LineWord::ExportFunction => Ok(PackageLine::ExportFunction(signed_line(alloc, arguments)?)),
        LineWord::Include => include_line(alloc, arguments),
    }
}

/// One name.
fn named_line(alloc: Global, arguments: &[&str]) -> Result<Text, LineFault>
    ensures { IsRead (named_line_of (map (λ t. t.now) arguments.now)) result }
{
    match arguments {
        [name] => read_part(alloc, name),
        _ => Err(LineFault::NotUnderstood),
    }
}

/// One function.
fn signed_line(alloc: Global, arguments: &[&str]) -> Result<Signature, LineFault>
    ensures { IsRead (signed_line_of (map (λ t. t.now) arguments.now)) result }
{
    match arguments {
        [signature] => read_signature(alloc, signature),
        _ => Err(LineFault::NotUnderstood),
    }
}

/// `NAME TYPE`
fn type_line(alloc: Global, arguments: &[&str]) -> Result<PackageLine, LineFault>
    ensures { IsRead (type_line_of (map (λ t. t.now) arguments.now)) result }
{
    match arguments {
        [name, ty] => {
            let name = read_part(alloc, name)?;
            let ty = read_type_text(alloc, ty)?;
            Ok(PackageLine::Type_ { name, ty })
        }
        _ => Err(LineFault::NotUnderstood),
    }
}

/// `NAME F:TYPE ..`, with at least one field.
fn record_line(alloc: Global, arguments: &[&str]) -> Result<PackageLine, LineFault>
    ensures { IsRead (record_line_of (map (λ t. t.now) arguments.now)) result }
{
    match arguments.split_first() {
        Some((name, fields)) => {
            if fields.is_empty() {
                return Err(LineFault::NotUnderstood);
            }
            let name = read_part(alloc, name)?;
            let fields = read_typed_names(alloc, fields)?;
            Ok(PackageLine::Record { name, fields })
        }
        None => Err(LineFault::NotUnderstood),
    }
}

/// `PATH NAME` or `PATH NAME NEW`
fn use_line(alloc: Global, arguments: &[&str]) -> Result<PackageLine, LineFault>
    ensures { IsRead (use_line_of (map (λ t. t.now) arguments.now)) result }
{
    match arguments {
        [path, name] => use_of(alloc, path, name, name),
        [path, name, new] => use_of(alloc, path, name, new),
        _ => Err(LineFault::NotUnderstood),
    }
}

/// The use of a type under a new name.
fn use_of(alloc: Global, path: &str, name: &str, new: &str) -> Result<PackageLine, LineFault>
    ensures { IsRead (use_line_with path.now name.now new.now) result }
{
    let path = read_path(alloc, path)?;
    let name = read_part(alloc, name)?;
    let new = read_part(alloc, new)?;
    Ok(PackageLine::Use { path, name, new })
}

/// `PATH` or `LABEL=PATH`; the label ends at the first `=`.
fn entry_line(alloc: Global, arguments: &[&str]) -> Result<(Option<Text>, ParsedUsePath), LineFault>
    ensures { IsRead (entry_tokens (map (λ t. t.now) arguments.now)) result }
{
    match arguments {
        [token] => entry(alloc, token),
        _ => Err(LineFault::NotUnderstood),
    }
}

/// A path, under a label where there is one.
fn entry(alloc: Global, token: &str) -> Result<(Option<Text>, ParsedUsePath), LineFault>
    ensures { IsRead (entry_by token.now (split_at 61 token.now)) result }
{
    match token.split_once('=') {
        Some((label, path)) => {
            let label = read_part(alloc, label)?;
            Ok((Some(label), read_path(alloc, path)?))
        }
        None => Ok((None, read_path(alloc, token)?)),
    }
}

/// `PATH OLD=NEW ..`
fn include_line(alloc: Global, arguments: &[&str]) -> Result<PackageLine, LineFault>
    ensures { IsRead (include_line_of (map (λ t. t.now) arguments.now)) result }
{
    match arguments.split_first() {
        Some((path, names)) => {
            let path = read_path(alloc, path)?;
            let names = renames(alloc, names)?;
            Ok(PackageLine::Include { path, names })
        }
        None => Err(LineFault::NotUnderstood),
    }
}

/// Each of these as `OLD=NEW`.
fn renames(alloc: Global, tokens: &[&str]) -> Result<Items<IncludeName>, LineFault>
    ensures { IsRead (each_of rename_of (map (λ t. t.now) tokens.now)) result }
{
    let mut found = Items::new(alloc);
    for token in tokens {
        match rename(alloc, token) {
            Ok(name) => found.push(name)?,
            Err(fault) => return Err(fault),
        }
    }
    Ok(found)
}

/// `OLD=NEW`; the old name ends at the first `=`.
fn rename(alloc: Global, token: &str) -> Result<IncludeName, LineFault>
    ensures { IsRead (rename_of token.now) result }
{
    match token.split_once('=') {
        Some((old, new)) => {
            let name = read_part(alloc, old)?;
            let as_ = read_part(alloc, new)?;
            Ok(IncludeName { name, as_ })
        }
        None => Err(LineFault::NotUnderstood),
    }
}
