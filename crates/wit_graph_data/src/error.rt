//! The error of a resolve graph.
ghost use Rattle.std.specs.Prelude.{◌≡◌, Some, string_bytes};
ghost use Rattle.std.specs.Borrow.{sem};
ghost use Rattle.wit_graph_data.specs.ErrorLoan.{LendsKind};
ghost use Rattle.wit_graph_data.specs.Error.{error_number, map_fault_kind};
ghost use Rattle.wit_graph_data.specs.ErrorText.{kind_text};
ghost use Rattle.wit_graph_data.specs.declared.error_kind.ResolveErrorKind.TheVariants as kinds;
ghost use Rattle.wit_graph_data.specs.declared.cause.Cause.TheVariants.{Other};

use crate::cause::Cause;
use crate::error_kind::ResolveErrorKind;
use std::alloc::AllocError;
use std::error::Error;
use std::fmt;
use std::marker::Model;
use wit_data::{MapFault, Span};
use wit_values::{Text, TryClone};

/// An error of a resolve graph, which contracts see as its kind.
///
/// Source: `ResolveError` of wit-parser 0.263.0.
#[derive(Debug, PartialEq, Eq)]
pub struct ResolveError {
    kind: ResolveErrorKind,
}

impl Model for ResolveError {
    ghost use Rattle.wit_graph_data.specs.declared.error_kind.ResolveErrorKind.{ResolveErrorKind};

    ghost Value = { ResolveErrorKind };

    ghost view = { λ e. e.kind };

    ghost inverse = { λ k. record { kind = k } };
}

// Written by hand, so that to let an error go is one call and not the cases of its kinds.
impl Drop for ResolveError {
    fn drop(self) {
        let ResolveError { kind } = self;
        drop(kind);
    }
}

/// A result whose error is a `ResolveError`, where no other is named.
///
/// Source: `ResolveResult` of wit-parser 0.263.0.
pub type ResolveResult<T, E = ResolveError> = Result<T, E>;

impl ResolveError {
    /// An error that is told by a message, of the cause `Other`. It takes no memory.
    ///
    /// Source: `new_semantic` of `ResolveError` of wit-parser 0.263.0.
    pub fn new_semantic(span: Span, message: String) -> ResolveError
        ensures { result ≡ kinds.Semantic span (string_bytes message) Other }
    {
        ResolveError {
            kind: ResolveErrorKind::Semantic {
                span,
                message: Text::from_string(message),
                cause: Cause::Other,
            },
        }
    }

    /// What went wrong.
    ///
    /// Source: `kind` of `ResolveError` of wit-parser 0.263.0.
    pub fn kind(&self) -> &ResolveErrorKind
        ensures { result.now ≡ self.now }
    {
        &self.kind
    }

    /// What went wrong, to write: the error has the kind that is left there.
    ///
    /// Source: `kind_mut` of `ResolveError` of wit-parser 0.263.0.
    pub fn kind_mut(&mut self) -> &mut ResolveErrorKind
        ensures* writes_back { sem 𝓛 (LendsKind self.entry result) }
        ensures value { result.now ≡ self.old }
    {
        &mut self.kind
    }

    /// The number of the refusal: 1 to 8 for the kinds in their order up to `StabilityMismatch`, that
    /// of the cause for `Semantic` ([`Cause::number`]), 27 for `OffsetOverflow`, and 28 for
    /// `OutOfMemory`.
    pub fn number(&self) -> u32
        ensures { result ≡ error_number self.now }
    {
        match &self.kind {
            ResolveErrorKind::PackageNotFound { .. } => 1,
            ResolveErrorKind::WorldNotFound { .. } => 2,
            ResolveErrorKind::InterfaceNotFound { .. } => 3,
            ResolveErrorKind::InvalidTransitiveDependency { .. } => 4,
            ResolveErrorKind::DuplicatePackage { .. } => 5,
            ResolveErrorKind::PackageCycle { .. } => 6,
            ResolveErrorKind::ItemShadowing { .. } => 7,
            ResolveErrorKind::StabilityMismatch { .. } => 8,
            ResolveErrorKind::Semantic { cause, .. } => cause.number(),
            ResolveErrorKind::OffsetOverflow => 27,
            ResolveErrorKind::OutOfMemory => 28,
        }
    }
}

impl From<ResolveErrorKind> for ResolveError {
    ghost from_gives = { λ kind e. e ≡ kind };

    fn from(kind: ResolveErrorKind) -> ResolveError {
        ResolveError { kind }
    }
}

/// Want of memory.
impl From<AllocError> for ResolveError {
    ghost from_gives = { λ _ e. e ≡ kinds.OutOfMemory };

    fn from(_e: AllocError) -> ResolveError {
        ResolveError {
            kind: ResolveErrorKind::OutOfMemory,
        }
    }
}

/// The text of the kind.
impl fmt::Display for ResolveError {
    ghost output = { λ e. Some (kind_text e) };

    fn fmt<W: fmt::Write>(&self, f: &mut fmt::Formatter<W>) -> fmt::Result {
        fmt::Display::fmt(&self.kind, f)
    }
}

impl Error for ResolveError {}

impl TryClone for ResolveError {
    fn try_clone(&self) -> Result<ResolveError, AllocError> {
        Ok(ResolveError {
            kind: self.kind.try_clone()?,
        })
    }
}

/// What a source map refused.
impl From<MapFault> for ResolveError {
    ghost from_gives = { λ fault e. e ≡ map_fault_kind fault };

    fn from(fault: MapFault) -> ResolveError {
        match fault {
            MapFault::OffsetOverflow => ResolveError {
                kind: ResolveErrorKind::OffsetOverflow,
            },
            MapFault::OutOfMemory => ResolveError {
                kind: ResolveErrorKind::OutOfMemory,
            },
        }
    }
}
