//! Documentation and stability.
ghost use Rattle.std.specs.Prelude.{◌≡◌, ◌↔◌, IsTrue, None};
ghost use Rattle.wit_data.specs.Stability.{IsStable};
ghost use Rattle.wit_data.specs.declared.stability.Stability.TheVariants.{Unknown};

use std::alloc::AllocError;
use wit_values::{Text, TryClone, Version, try_clone_two};

/// Documentation.
///
/// Source: `Docs` of wit-parser 0.263.0.
#[derive(Debug, PartialEq, Eq, Drop)]
pub struct Docs {
    /// The text of the comment, where there is one.
    pub contents: Option<Text>,
}

impl Docs {
    /// No documentation.
    pub fn none() -> Docs
        ensures { result.contents ≡ None }
    {
        Docs { contents: None }
    }
}

impl TryClone for Docs {
    fn try_clone(&self) -> Result<Docs, AllocError> {
        Ok(Docs {
            contents: self.contents.try_clone()?,
        })
    }
}

/// The feature gate of an item, as WIT writes it: nothing, `@since(version = ..)`, or
/// `@unstable(feature = ..)`, each of the two with an optional `@deprecated(version = ..)`.
///
/// Source: `Stability` of wit-parser 0.263.0; WIT.md of the component model.
#[derive(Debug, PartialEq, Eq)]
pub enum Stability {
    Unknown,
    Stable {
        since: Version,
        deprecated: Option<Version>,
    },
    Unstable {
        feature: Text,
        deprecated: Option<Version>,
    },
}

/// As the derived one: what it holds is let go. A call of it costs the check less than a derived one,
/// which is checked again wherever a value is let go.
impl Drop for Stability {
    fn drop(self) {
        match self {
            Stability::Unknown => {}
            Stability::Stable { since, deprecated } => {
                drop(since);
                drop(deprecated);
            }
            Stability::Unstable {
                feature,
                deprecated,
            } => {
                drop(feature);
                drop(deprecated);
            }
        }
    }
}

impl Stability {
    /// Whether the item has no gate.
    ///
    /// Source: `is_unknown` of `Stability` of wit-parser 0.263.0.
    pub fn is_unknown(&self) -> bool
        ensures { IsTrue result ↔ (self.now ≡ Unknown) }
    {
        matches!(self, Stability::Unknown)
    }

    /// Whether the item's gate is `@since`.
    ///
    /// Source: `is_stable` of `Stability` of wit-parser 0.263.0.
    pub fn is_stable(&self) -> bool
        ensures { IsTrue result ↔ IsStable self.now }
    {
        matches!(self, Stability::Stable { .. })
    }
}

/// No gate.
impl Default for Stability {
    ghost is_default = { λ s. s ≡ Unknown };

    fn default() -> Stability {
        Stability::Unknown
    }
}

impl TryClone for Stability {
    fn try_clone(&self) -> Result<Stability, AllocError> {
        match self {
            Stability::Unknown => Ok(Stability::Unknown),
            Stability::Stable { since, deprecated } => {
                let (since, deprecated) = try_clone_two(since, deprecated)?;
                Ok(Stability::Stable { since, deprecated })
            }
            Stability::Unstable {
                feature,
                deprecated,
            } => {
                let (feature, deprecated) = try_clone_two(feature, deprecated)?;
                Ok(Stability::Unstable {
                    feature,
                    deprecated,
                })
            }
        }
    }
}
