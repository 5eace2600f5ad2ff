//! The kinds of errors of a resolve graph, each with its text.
ghost use Rattle.std.specs.Prelude.{◌≡◌, Some};
ghost use Rattle.wit_graph_data.specs.Error.{error_span};
ghost use Rattle.wit_graph_data.specs.ErrorText.{kind_text, known_text, stability_text};
ghost use Rattle.wit_graph_data.specs.declared.error_kind.ResolveErrorKind.TheVariants as kinds;

use crate::cause::Cause;
use crate::error_copies as copies;
use std::alloc::AllocError;
use std::fmt;
use wit_data::{PackageName, Span, Stability};
use wit_values::{Items, Text, TryClone};

/// What went wrong, with what wit-parser 0.263.0 tells of it. `Cause`, `OffsetOverflow` and
/// `OutOfMemory` are not of wit-parser.
///
/// Source: `ResolveErrorKind` of wit-parser 0.263.0.
#[derive(Debug, PartialEq, Eq, Drop)]
pub enum ResolveErrorKind {
    /// A package that is depended on is not there.
    PackageNotFound {
        span: Span,
        requested: PackageName,
        /// The packages that are there.
        known: Items<PackageName>,
    },
    /// A package that is depended on has no such world.
    WorldNotFound {
        span: Span,
        requested: Text,
        package: PackageName,
    },
    /// A package that is depended on has no such interface.
    InterfaceNotFound {
        span: Span,
        requested: Text,
        package: PackageName,
    },
    /// A world would export an interface over an import that depends on an export.
    InvalidTransitiveDependency {
        span: Span,
        name: Text,
    },
    /// Two packages have one name.
    DuplicatePackage {
        name: PackageName,
        span1: Span,
        span2: Span,
    },
    /// A package depends on itself, maybe through others.
    PackageCycle {
        span: Span,
        package: PackageName,
    },
    /// An included world has an item whose label is taken. `item_type` is `import` or `export`.
    ItemShadowing {
        span: Span,
        item_type: Text,
        name: Text,
    },
    /// Two stabilities of one item differ.
    StabilityMismatch {
        span: Span,
        from: Stability,
        into: Stability,
    },
    /// Anything else about the meaning of the source, told by a message.
    Semantic {
        span: Span,
        message: Text,
        cause: Cause,
    },
    /// A position would pass 4294967295.
    OffsetOverflow,
    /// Memory was refused.
    OutOfMemory,
}

impl ResolveErrorKind {
    /// Where the fault is: the first of the two spans of a `DuplicatePackage`, unknown for
    /// `OffsetOverflow` and `OutOfMemory`.
    ///
    /// Source: `span` of `ResolveErrorKind` of wit-parser 0.263.0.
    pub fn span(&self) -> Span
        ensures { result ≡ error_span self.now }
    {
        match self {
            Self::PackageNotFound { span, .. } => *span,
            Self::WorldNotFound { span, .. } => *span,
            Self::InterfaceNotFound { span, .. } => *span,
            Self::InvalidTransitiveDependency { span, .. } => *span,
            Self::DuplicatePackage { span1, .. } => *span1,
            Self::PackageCycle { span, .. } => *span,
            Self::ItemShadowing { span, .. } => *span,
            Self::StabilityMismatch { span, .. } => *span,
            Self::Semantic { span, .. } => *span,
            Self::OffsetOverflow => Span::unknown(),
            Self::OutOfMemory => Span::unknown(),
        }
    }
}

impl TryClone for ResolveErrorKind {
    fn try_clone(&self) -> Result<ResolveErrorKind, AllocError> {
        match self {
            Self::PackageNotFound {
                span,
                requested,
                known,
            } => copies::package_not_found(*span, requested, known),
            Self::WorldNotFound {
                span,
                requested,
                package,
            } => copies::world_not_found(*span, requested, package),
            Self::InterfaceNotFound {
                span,
                requested,
                package,
            } => copies::interface_not_found(*span, requested, package),
            Self::InvalidTransitiveDependency { span, name } => copies::transitive(*span, name),
            Self::DuplicatePackage { name, span1, span2 } => copies::duplicate(
                name, *span1, *span2,
            ),
            Self::PackageCycle { span, package } => copies::cycle(*span, package),
            Self::ItemShadowing {
                span,
                item_type,
                name,
            } => copies::shadowing(*span, item_type, name),
            Self::StabilityMismatch { span, from, into } => copies::mismatch(*span, from, into),
            Self::Semantic {
                span,
                message,
                cause,
            } => copies::semantic(*span, message, *cause),
            Self::OffsetOverflow => Ok(Self::OffsetOverflow),
            Self::OutOfMemory => Ok(Self::OutOfMemory),
        }
    }
}

/// Want of memory.
impl From<AllocError> for ResolveErrorKind {
    ghost from_gives = { λ _ e. e ≡ kinds.OutOfMemory };

    fn from(_e: AllocError) -> ResolveErrorKind {
        Self::OutOfMemory
    }
}

// How the text of a mismatch tells a stability.
#[derive(Drop)]
struct StabilityText<'a>(&'a Stability);

impl<'a> fmt::Display for StabilityText<'a> {
    ghost output = { λ s. Some (stability_text s.0.now) };

    fn fmt<W: fmt::Write>(&self, f: &mut fmt::Formatter<W>) -> fmt::Result {
        let deprecated = match self.0 {
            Stability::Unknown => {
                write!(f, "unknown")?;
                return Ok(());
            }
            Stability::Stable { since, deprecated } => {
                write!(f, "stable {since}")?;
                deprecated
            }
            Stability::Unstable {
                feature,
                deprecated,
            } => {
                write!(f, "unstable {feature}")?;
                deprecated
            }
        };
        if let Some(version) = deprecated {
            write!(f, " deprecated {version}")?;
        }
        Ok(())
    }
}

// The known packages, each on a line of its own.
#[derive(Drop)]
struct KnownPackages<'a>(&'a [PackageName]);

impl<'a> fmt::Display for KnownPackages<'a> {
    ghost output = { λ s. Some (known_text s.0.now) };

    fn fmt<W: fmt::Write>(&self, f: &mut fmt::Formatter<W>) -> fmt::Result {
        if self.0.is_empty() {
            return Ok(());
        }
        write!(f, ". known packages:")?;
        for name in self.0 {
            write!(f, "\n    {name}")?;
        }
        Ok(())
    }
}

/// The text that tells what went wrong, without the span.
impl fmt::Display for ResolveErrorKind {
    ghost output = { λ k. Some (kind_text k) };

    fn fmt<W: fmt::Write>(&self, f: &mut fmt::Formatter<W>) -> fmt::Result {
        match self {
            Self::PackageNotFound {
                requested,
                known,
                ..
            } => {
                let known = KnownPackages(known.as_slice());
                write!(f, "package '{requested}' not found{known}")
            }
            Self::WorldNotFound {
                requested: world,
                package,
                ..
            } => write!(f, "world '{world}' not found in package '{package}'"),
            Self::InterfaceNotFound {
                requested,
                package,
                ..
            } => write!(
                f,
                "interface '{requested}' not found in package '{package}'"
            ),
            Self::InvalidTransitiveDependency { name, .. } => write!(
                f,
                "interface `{name}` transitively depends on an interface in incompatible ways"
            ),
            Self::DuplicatePackage { name, .. } => {
                write!(f, "package `{name}` is defined in two different locations")
            }
            Self::PackageCycle { package, .. } => {
                write!(f, "package `{package}` creates a dependency cycle")
            }
            Self::ItemShadowing {
                item_type: word,
                name: label,
                ..
            } => write!(f, "{word} of `{label}` shadows previously {word}ed items"),
            Self::StabilityMismatch { from, into, .. } => {
                let from = StabilityText(from);
                let into = StabilityText(into);
                write!(f, "mismatch in stability from '{from}' to '{into}'")
            }
            Self::Semantic { message, .. } => write!(f, "{message}"),
            Self::OffsetOverflow => { write!(f, "source positions would pass 4294967295") }
            Self::OutOfMemory => write!(f, "out of memory"),
        }
    }
}
