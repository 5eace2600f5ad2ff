//! The errors of resources that are none and of borrows that are returned.
ghost use Rattle.std.specs.Prelude.{IfOk, string_bytes};
ghost use Rattle.wit_remap_spec.specs.Borrows.{borrow_text};
ghost use Rattle.wit_graph_data.specs.declared.cause.Cause.TheVariants as cause;
ghost use Rattle.wit_link_resources.specs.steps.Borrows.{IsErrorAtSpan};
ghost use Rattle.wit_link_spec.specs.steps.Parts.{not_a_resource_text};

use std::alloc::{AllocError, Global};
use wit_data::{Function, Span, Text};
use wit_graph_data::{Cause, ResolveError, ResolveErrorKind};

/// A message with a span of the package, whose spans move by an offset.
fn semantic(span: Span, offset: u32, message: String, cause: Cause) -> ResolveError
    ensures { IsErrorAtSpan span offset (string_bytes message) cause result }
{
    match span.moved(offset) {
        Some(span) => ResolveErrorKind::Semantic {
            span,
            message: Text::from_string(message),
            cause,
        }
        .into(),
        None => ResolveErrorKind::OffsetOverflow.into(),
    }
}

/// 14: a type that has to be a resource is none.
pub(crate) fn not_a_resource(
    alloc: Global,
    span: Span,
    offset: u32,
) -> Result<ResolveError, AllocError>
    ensures { IfOk result (IsErrorAtSpan span offset not_a_resource_text cause.NotAResource) }
{
    let message = format!(in alloc; "type used in a handle must be a resource")?;
    Ok(semantic(span, offset, message, Cause::NotAResource))
}

/// 15: a function returns a borrow.
pub(crate) fn borrow_in_result(
    alloc: Global,
    function: &Function,
    offset: u32,
) -> Result<ResolveError, AllocError>
    ensures { IfOk result (IsErrorAtSpan function.now.span offset (borrow_text function.now.name)
        cause.BorrowInResult) }
{
    let name = &function.name;
    let message = format!(in alloc;
        "function `{name}` returns a type which contains a `borrow<T>` which is not supported"
    )?;
    Ok(semantic(function.span, offset, message, Cause::BorrowInResult))
}
