//! What goes wrong with sources, and how spans in them and faults are told.
ghost use Rattle.std.specs.Prelude.{◌≡◌, IfErr, IfOk, string_bytes};
ghost use Rattle.wit_graph_data.specs.declared.error_kind.ResolveErrorKind.TheVariants.{OutOfMemory};
ghost use Rattle.wit_resolve_graph.specs.Sources.{fault_rendered};
ghost use Rattle.wit_sources.specs.Locations.{location_of};

use crate::resolve::Resolve;
use std::alloc::Global;
use std::fmt;
use wit_data::{MapFault, SourceMap, Span, Text};
use wit_graph_data::{ResolveError, ResolveResult, render_text};

/// Why a parse makes no group of its sources.
#[derive(Drop)]
pub enum ParseFault {
    /// The text can't be read: why, and where in the files that were read.
    Text {
        source_map: SourceMap,
        span: Span,
        message: Text,
    },
    OutOfMemory,
}

impl fmt::Debug for ParseFault {
    fn fmt<W: fmt::Write>(&self, f: &mut fmt::Formatter<W>) -> fmt::Result {
        match self {
            ParseFault::Text { span, message, .. } => f
                .debug_struct("Text")
                .field("span", span)
                .field("message", message)
                .finish_non_exhaustive(),
            ParseFault::OutOfMemory => f.write_str("OutOfMemory"),
        }
    }
}

/// Why a source isn't pushed.
#[derive(Debug, Drop)]
pub enum SourceFault {
    /// The text can't be read: why, and where in the sources of the `Resolve`.
    Parse { span: Span, message: Text },
    /// Anything else.
    Resolve(ResolveError),
}

/// What a source map refused.
impl From<MapFault> for SourceFault {
    ghost use Rattle.std.specs.Prelude.{◌≡◌};
    ghost use Rattle.wit_graph_data.specs.Error.{map_fault_kind};
    ghost use Rattle.wit_resolve_graph.specs.declared.sources.SourceFault.TheVariants as fault;

    ghost from_gives = { λ refused told. told ≡ fault.Resolve (map_fault_kind refused) };

    fn from(refused: MapFault) -> SourceFault {
        SourceFault::Resolve(ResolveError::from(refused))
    }
}

/// A refusal.
impl From<ResolveError> for SourceFault {
    ghost use Rattle.std.specs.Prelude.{◌≡◌};
    ghost use Rattle.wit_resolve_graph.specs.declared.sources.SourceFault.TheVariants as fault;

    ghost from_gives = { λ kind told. told ≡ fault.Resolve kind };

    fn from(error: ResolveError) -> SourceFault {
        SourceFault::Resolve(error)
    }
}

impl Resolve {
    /// Where a span of the sources begins: see `SourceMap::render_location`. The only refusal is want
    /// of memory (28).
    ///
    /// Source: `render_location` of wit-parser 0.263.0.
    pub fn render_location(&self, alloc: Global, span: Span) -> ResolveResult<String>
        ensures text { IfOk result
            (λ text. string_bytes text ≡ location_of self.now.source_map.files span) }
        ensures memory { IfErr result (λ e. e ≡ OutOfMemory) }
    {
        Ok(self.source_map().render_location(alloc, span)?)
    }

    /// A fault with the line in which it is: see `ResolveError::render`. The only refusal is want of
    /// memory (28).
    ///
    /// Source: `render_error` of wit-parser 0.263.0.
    pub fn render_error(&self, alloc: Global, fault: &SourceFault) -> ResolveResult<String>
        ensures text { IfOk result
            (λ text. string_bytes text ≡ fault_rendered self.now.source_map.files fault.now) }
        ensures memory { IfErr result (λ e. e ≡ OutOfMemory) }
    {
        match fault {
            SourceFault::Parse { span, message } => {
                Ok(render_text(alloc, self.source_map(), *span, message.as_str())?)
            }
            SourceFault::Resolve(error) => error.render(alloc, self.source_map()),
        }
    }
}
