//! Why a line isn't understood.
use crate::context::{Context, context_before, said_by};
use crate::lines::ScriptLines;
use crate::name_reason::{culprit_reason, part_reason};
use crate::word_reason::word_reason;
use std::alloc::{AllocError, Global};
use wit_script_lines::{Request, Statement};

/// Why the line of an index isn't understood, which shows at the line of another, or at the same.
pub fn reason(
    alloc: Global,
    script: &ScriptLines,
    index: usize,
    shown: usize,
) -> Result<String, AllocError> {
    let Some(line) = script.lines.get(shown) else {
        return Ok(String::new(alloc));
    };
    let line = line.as_str();
    if let Some(text) = byte_reason(line) {
        return String::from_str(alloc, text);
    }
    match said_by(alloc, line)? {
        Some(said) => {
            if shown != index {
                return culprit_reason(alloc, said);
            }
            let context = context_before(alloc, script.lines.as_slice(), index)?;
            statement_reason(alloc, context, said, line)
        }
        None => word_reason(alloc, line),
    }
}

/// A byte in a line that looks like a space and is none.
fn byte_reason(line: &str) -> Option<&'static str> {
    if line.ends_with("\r") {
        return Some("a carriage return ends it: lines end with a line feed alone");
    }
    if line.as_bytes().contains(&b'\r') {
        return Some("a carriage return stands in it");
    }
    if line.as_bytes().contains(&b'\t') {
        return Some("a tab stands in it: spaces alone separate");
    }
    None
}

/// Why a line that says this isn't understood after what stands before it.
fn statement_reason(
    alloc: Global,
    context: Context,
    said: Statement,
    line: &str,
) -> Result<String, AllocError> {
    match said {
        Statement::Package(_) => String::from_str(alloc, "its package waits for `push`"),
        Statement::Push => String::from_str(alloc, push_reason(&context)),
        Statement::Request(request) => String::from_str(alloc, request_reason(&context, &request)),
        Statement::Line { said, gate } => {
            let mut context = context;
            let Some(draft) = &context.draft else {
                return String::from_str(alloc, "no `package` stands before it");
            };
            let told = part_reason(alloc, draft, &said)?;
            if context.is_added(alloc, said, gate, line)? {
                return String::from_str(alloc, "its package waits for `push`");
            }
            Ok(told)
        }
    }
}

/// Why a `push` isn't understood, or what is missing behind it.
fn push_reason(context: &Context) -> &'static str {
    if context.draft.is_some() {
        return "an `other` before it waits for its `merge`";
    }
    "no package stands before it"
}

/// Why a command can't be asked, or what is missing behind it.
fn request_reason(context: &Context, request: &Request) -> &'static str {
    if context.draft.is_some() {
        return "a package stands before it and waits for `push`";
    }
    match request {
        Request::Other => {
            if context.other {
                return "an `other` before it waits for its `merge`";
            }
            "it waits for its `merge`"
        }
        Request::Merge => "no `other` stands before it",
        _ => "an `other` before it waits for its `merge`",
    }
}
