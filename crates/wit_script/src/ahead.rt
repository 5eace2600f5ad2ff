//! What the lines of a package mention of other packages, looked at ahead.
ghost use Rattle.std.specs.Option.{option_to_list};
ghost use Rattle.std.specs.Prelude.{◌≡◌, ◌+◌, ◌++◌, List, ℕ, length, map, IfOk, OnOk};
ghost use Rattle.wit_script_package.specs.declared.mention.Mention.{Mention};
ghost use Rattle.wit_script_lines.specs.Statement.{statement_of};
ghost use Rattle.wit_script_lines.specs.declared.fault.LineFault.TheVariants.{NotUnderstood};
ghost use Rattle.wit_script_lines.specs.declared.statement.Statement.TheVariants as says;
ghost use Rattle.wit_script.specs.Script.{mentions_ahead, mentions_with};
ghost use Rattle.wit_script.specs.steps.Script.{mentions_then};
ghost use Rattle.wit_script_package.specs.Draft.{span_after};
ghost use Rattle.wit_script.specs.declared.ahead.Ahead.TheVariants as comes;
ghost use Rattle.wit_script.specs.steps.Parts.{mentions_by, mentions_past};

use std::alloc::{AllocError, Global};
use wit_data::{Items, Stability};
use wit_script_lines::{LineFault, PackageLine, Statement, read_line};
use wit_script_package::{Mention, mention_of, mentions_nothing, span_of};

/// What a line ahead is.
#[derive(Drop)]
pub enum Ahead {
    /// The package ends before it, or it doesn't fit into the package's file.
    End,
    /// It says nothing.
    Silent,
    /// It is a line of the package, or isn't understood; behind it the file has so many bytes.
    Line {
        mention: Option<Mention>,
        next: usize,
    },
}

/// The end of the package before a line that comes to nothing.
fn ended(fault: LineFault) -> Result<Ahead, AllocError>
    ensures { IfOk result (λ ahead. (ahead ≡ comes.End) × (fault ≡ NotUnderstood)) }
{
    match fault {
        LineFault::NotUnderstood => Ok(Ahead::End),
        LineFault::OutOfMemory => Err(AllocError),
    }
}

/// A line of the package, where its file has so many bytes before it.
fn line_ahead(
    at: usize,
    line: &str,
    said: PackageLine,
    gate: Stability,
) -> Result<Ahead, AllocError>
    ensures { IfOk result (λ ahead.
        (after : ℕ → List Mention)
        → mentions_then ahead at after ≡ mentions_by at line.now after (says.Line said gate)) }
{
    match span_of(at, line) {
        Ok(span) => Ok(Ahead::Line {
            mention: mention_of(said, gate, span),
            next: at + line.len() + 1,
        }),
        Err(fault) => ended(fault),
    }
}

/// What a line says, where the file of the package has so many bytes before it.
fn statement_ahead(at: usize, line: &str, said: Statement) -> Result<Ahead, AllocError>
    ensures { IfOk result (λ ahead.
        (after : ℕ → List Mention)
        → mentions_then ahead at after ≡ mentions_by at line.now after said) }
{
    match said {
        Statement::Line { said, gate } => line_ahead(at, line, said, gate),
        Statement::Package(_) => Ok(Ahead::End),
        Statement::Push => Ok(Ahead::End),
        Statement::Request(_) => Ok(Ahead::End),
    }
}

/// A line that mentions nothing, or isn't understood, where the file of the package has so many bytes
/// before it.
fn pass_over(at: usize, line: &str) -> Result<Ahead, AllocError>
    ensures { IfOk result (λ ahead.
        (after : ℕ → List Mention)
        → mentions_then ahead at after
        ≡ mentions_past (at + length line.now + 1) after (span_after at line.now)) }
{
    match span_of(at, line) {
        Ok(_) => {
            let next = at + line.len() + 1;
            Ok(Ahead::Line {
                mention: None,
                next,
            })
        }
        Err(fault) => ended(fault),
    }
}

/// What a line ahead is, where the file of the package has so many bytes before it. It is read only where
/// it may mention something of another package, or end the package.
fn look_ahead(alloc: Global, at: usize, line: &str) -> Result<Ahead, AllocError>
    ensures { IfOk result (λ next.
        (after : ℕ → List Mention)
        → mentions_then next at after
        ≡ mentions_with at line.now after (statement_of line.now)) }
{
    if mentions_nothing(line) {
        return pass_over(at, line);
    }
    match read_line(alloc, line) {
        Ok(Some(said)) => statement_ahead(at, line, said),
        Ok(None) => Ok(Ahead::Silent),
        Err(LineFault::NotUnderstood) => pass_over(at, line),
        Err(LineFault::OutOfMemory) => Err(AllocError),
    }
}

/// Adds a mention, where there is one.
fn push_some(mentions: &mut Items<Mention>, mention: Option<Mention>) -> Result<(), AllocError>
    ensures { OnOk result (mentions.new ≡ mentions.old ++ option_to_list mention) }
{
    match mention {
        Some(mention) => mentions.push(mention),
        None => Ok(()),
    }
}

/// What lines mention up to the end of the package, or to the first that doesn't fit into its file,
/// where the file has so many bytes before them. A line that isn't understood is passed over. The only
/// error is want of memory.
pub fn mentions_ahead(
    alloc: Global,
    file_len: usize,
    lines: &[&str],
) -> Result<Items<Mention>, AllocError>
    ensures { IfOk result
        (λ mentions. mentions ≡ mentions_ahead file_len (map (λ line. line.now) lines.now)) }
{
    let mut mentions = Items::new(alloc);
    let mut at = file_len;
    for line in lines {
        match look_ahead(alloc, at, line)? {
            Ahead::End => return Ok(mentions),
            Ahead::Silent => {}
            Ahead::Line { mention, next } => {
                at = next;
                push_some(&mut mentions, mention)?;
            }
        }
    }
    Ok(mentions)
}
