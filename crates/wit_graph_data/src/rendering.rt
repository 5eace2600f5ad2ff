//! Errors as they are told with their spans.
ghost use Rattle.std.specs.Prelude.{◌≡◌, IfErr, IfOk, string_bytes};
ghost use Rattle.wit_graph_data.specs.ErrorText.{rendered_text, text_at};
ghost use Rattle.wit_graph_data.specs.declared.error_kind.ResolveErrorKind.TheVariants.{OutOfMemory};

use crate::error::{ResolveError, ResolveResult};
use crate::error_kind::ResolveErrorKind;
use std::alloc::{AllocError, Global};
use wit_data::{SourceMap, Span};

impl ResolveError {
    /// The text of the error with the line in which it is, the text alone where its span is unknown or in no file; of
    /// a package that is defined twice the text with both spans. The only refusal is want of memory (28).
    ///
    /// Source: `render` of `ResolveError` of wit-parser 0.263.0.
    pub fn render(&self, alloc: Global, source_map: &SourceMap) -> ResolveResult<String>
        ensures text { IfOk result
            (λ text. string_bytes text ≡ rendered_text source_map.now.files self.now) }
        ensures memory { IfErr result (λ e. e ≡ OutOfMemory) }
    {
        let text = format!(in alloc; "{self}")?;
        match self.kind() {
            ResolveErrorKind::DuplicatePackage { span1, span2, .. } => {
                let first = source_map.render_location(alloc, *span1)?;
                let second = source_map.render_location(alloc, *span2)?;
                Ok(format!(in alloc; "{text}:\n  * {first}\n  * {second}")?)
            }
            kind => Ok(render_text(alloc, source_map, kind.span(), text.as_str())?),
        }
    }
}

/// A text with the line in which a span begins, the text alone where the span is unknown or in no file. The only error
/// is want of memory.
pub fn render_text(
    alloc: Global,
    source_map: &SourceMap,
    span: Span,
    text: &str,
) -> Result<String, AllocError>
    ensures { IfOk result
        (λ shown. string_bytes shown ≡ text_at source_map.now.files span text.now) }
{
    match source_map.highlight_span(alloc, span, text)? {
        Some(shown) => Ok(shown),
        None => String::from_str(alloc, text),
    }
}
