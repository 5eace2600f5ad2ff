//! A package that is added, seen with what is active of it.
ghost use Rattle.std.specs.Prelude.{◌≡◌, IfOk, string_bytes};
ghost use Rattle.wit_sources.specs.Span.{moved_by};
ghost use Rattle.wit_graph_data.specs.declared.error_kind.ResolveErrorKind.TheVariants.{Semantic};
ghost use Rattle.wit_link_spec.specs.Gates.{is_active};

use std::alloc::{AllocError, Global};
use wit_data::{Span, Stability, Text};
use wit_graph_data::{Cause, ResolveError, ResolveErrorKind};
use wit_link_spec::{Activity, AdditionRef, is_active};

/// A package that is added, and what is active of it.
#[derive(Drop)]
pub(crate) struct Checker<'a> {
    pub(crate) alloc: Global,
    pub(crate) addition: AdditionRef<'a>,
    pub(crate) activity: &'a Activity,
}

impl<'a> Checker<'a> {
    /// Whether a gate lets its item be active.
    pub(crate) fn is_active(&self, note: &Stability) -> bool
        ensures { result ≡ is_active self.now.addition.features.now note.now }
    {
        is_active(self.addition.features, note)
    }

    /// Where a span of the package is in the graph. The caller has seen that no span passes the last position,
    /// so an error says that memory is wanting.
    fn moved(&self, span: Span) -> Result<Span, AllocError>
        ensures { IfOk result (λ x. x ≡ moved_by self.now.addition.offset span) }
    {
        span.moved(self.addition.offset).ok_or(AllocError)
    }

    /// An error with a span of the package.
    pub(crate) fn semantic(
        &self,
        span: Span,
        message: String,
        cause: Cause,
    ) -> Result<ResolveError, AllocError>
        ensures { IfOk result (λ e.
            e
            ≡ Semantic (moved_by self.now.addition.offset span) (string_bytes message) cause) }
    {
        let span = self.moved(span)?;
        Ok(ResolveErrorKind::Semantic {
            span,
            message: Text::from_string(message),
            cause,
        }
        .into())
    }
}
