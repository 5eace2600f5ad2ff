//! Spans: where pieces of text stand in a source map.
ghost use Rattle.std.specs.Prelude.{◌≡◌, ◌≤◌, ◌<◌, ◌+◌, ◌^◌, ◌↔◌, Some, None, IsTrue, IsSome};
ghost use Rattle.std.specs.Option.{SomeIff};
ghost use Rattle.wit_sources.specs.Span.{start_of, end_of, moved_by};

use std::alloc::AllocError;
use std::marker::Model;
use wit_values::TryClone;

/// Where a piece of text stands in a source map: from one position up to another, which it does not
/// take, or unknown. Positions count bytes, from 0.
///
/// Source: `Span` of wit-parser 0.263.0.
#[derive(Clone, Copy, Debug, PartialEq, Eq)]
pub struct Span {
    range: Option<(u32, u32)>,
}

impl Model for Span {
    ghost use Rattle.std.specs.Prelude.{Option, ℕ, ◌≤◌};
    ghost use Rattle.std.specs.Option.{ForSome};

    ghost Value = { Option (ℕ × ℕ) };

    ghost view = { λ s. s.range };

    ghost invariant = { λ s. ForSome s.range (λ r. r.0 ≤ r.1) };

    ghost inverse = { λ r. record { range = r } };
}

impl Span {
    /// The span from a position up to another, which isn't before it.
    pub fn new(start: u32, end: u32) -> Span
        requires { start ≤ end }
        ensures { result ≡ Some (start, end) }
    {
        Span {
            range: Some((start, end)),
        }
    }

    /// The unknown span.
    pub fn unknown() -> Span
        ensures { result ≡ None }
    {
        Span { range: None }
    }

    /// Whether the span is known.
    ///
    /// Source: `is_known` of `Span` of wit-parser 0.263.0.
    pub fn is_known(self) -> bool
        ensures { IsTrue result ↔ IsSome self }
    {
        self.range.is_some()
    }

    /// The first position, 0 where the span is unknown.
    ///
    /// Source: `start` of `Span` of wit-parser 0.263.0.
    pub fn start(self) -> u32
        ensures value { result ≡ start_of self }
        ensures ordered { result ≤ end_of self }
    {
        match self.range {
            Some((start, _)) => start,
            None => 0,
        }
    }

    /// The position after the last, 0 where the span is unknown.
    ///
    /// Source: `end` of `Span` of wit-parser 0.263.0.
    pub fn end(self) -> u32
        ensures value { result ≡ end_of self }
        ensures ordered { start_of self ≤ result }
    {
        match self.range {
            Some((_, end)) => end,
            None => 0,
        }
    }

    /// The span that lies `offset` positions further on, or None exactly where its end would pass
    /// 4294967295. An unknown span stays unknown.
    pub fn moved(self, offset: u32) -> Option<Span>
        ensures { SomeIff result (end_of self + offset < 2 ^ 32) (moved_by offset self) }
    {
        match self.range {
            Some((start, end)) => {
                let end = end.checked_add(offset)?;
                Some(Span::new(start + offset, end))
            }
            None => Some(self),
        }
    }
}

/// The default span is unknown.
impl Default for Span {
    ghost use Rattle.std.specs.Prelude.{◌≡◌, None};

    ghost is_default = { λ s. s ≡ None };

    fn default() -> Span {
        Span::unknown()
    }
}

impl TryClone for Span {
    fn try_clone(&self) -> Result<Span, AllocError> {
        Ok(*self)
    }
}
