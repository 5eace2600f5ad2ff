//! What a line of a script says by its tokens alone.
ghost use Rattle.std.specs.Prelude.{map};
ghost use Rattle.wit_script_lines.specs.steps.LineWords.{word_text};
ghost use Rattle.wit_script_lines.specs.steps.ReadResult.{IsRead};
ghost use Rattle.wit_script_lines.specs.Statement.{gated_line_by, statement_by, statement_of};
ghost use Rattle.wit_script_lines.specs.steps.Parts.{package_statement_of, push_statement_of};

use crate::fault::LineFault;
use crate::gate::{read_gate, ungated};
use crate::line::{is_comment, tokens};
use crate::package_line::{LineWord, PackageLine, line_word, read_package_line};
use crate::request::{Request, is_request, read_request};
use crate::token::read_package_name;
use std::alloc::Global;
use wit_data::{PackageName, Stability};

/// What a line of a script says.
#[derive(Drop)]
pub enum Statement {
    /// `package NS:NAME[@VERSION]`: begins a package.
    Package(PackageName),
    /// Goes into the package, with its gate.
    Line { said: PackageLine, gate: Stability },
    /// `push`: ends the packages, and adds them to the graph.
    Push,
    /// Another command.
    Request(Request),
}

/// What a line says by its tokens alone, or None for a line without tokens or a comment. Not understood
/// where its tokens are no statement of a script. Else only want of memory is an error.
pub fn read_line(alloc: Global, line: &str) -> Result<Option<Statement>, LineFault>
    ensures { IsRead (statement_of line.now) result }
{
    let tokens = tokens(alloc, line)?;
    match tokens.split_first() {
        None => Ok(None),
        Some((word, arguments)) => {
            if is_comment(word) {
                return Ok(None);
            }
            Ok(Some(read_statement(alloc, word, arguments)?))
        }
    }
}

/// What a line says by its first token and its arguments.
fn read_statement(alloc: Global, word: &str, arguments: &[&str]) -> Result<Statement, LineFault>
    ensures { IsRead (statement_by word.now (map (λ t. t.now) arguments.now)) result }
{
    if let Some(word) = line_word(word) {
        return gated_line(alloc, word, arguments);
    }
    if is_request(word) {
        return Ok(Statement::Request(read_request(alloc, word, arguments)?));
    }
    match word {
        "package" => package_statement(alloc, arguments),
        "push" => push_statement(arguments),
        _ => Err(LineFault::NotUnderstood),
    }
}

/// A line of a package, with its gate.
fn gated_line(alloc: Global, word: LineWord, arguments: &[&str]) -> Result<Statement, LineFault>
    ensures { IsRead (gated_line_by (word_text word) (map (λ t. t.now) arguments.now)) result }
{
    let gate = read_gate(alloc, arguments)?;
    let said = read_package_line(alloc, word, ungated(arguments))?;
    Ok(Statement::Line { said, gate })
}

/// `PKG`
fn package_statement(alloc: Global, arguments: &[&str]) -> Result<Statement, LineFault>
    ensures { IsRead (package_statement_of (map (λ t. t.now) arguments.now)) result }
{
    match arguments {
        [name] => Ok(Statement::Package(read_package_name(alloc, name)?)),
        _ => Err(LineFault::NotUnderstood),
    }
}

/// No argument.
fn push_statement(arguments: &[&str]) -> Result<Statement, LineFault>
    ensures { IsRead (push_statement_of (map (λ t. t.now) arguments.now)) result }
{
    match arguments {
        [] => Ok(Statement::Push),
        _ => Err(LineFault::NotUnderstood),
    }
}
