//! A version that contracts see as its numbers and texts.
ghost use Rattle.std.specs.Prelude.{◌≡◌, ℕ, List, Some, IfOk, IfErr, ◌⊎◌, refl, ◌++◌};
ghost use Rattle.semver.specs.Identifiers.{parts_of, parts_text};
ghost use Rattle.semver.specs.Parse.{IsRefused, memory_error, version_parts};
ghost use Rattle.wit_values.specs.Version.{version_cmp, version_eq};
ghost use Rattle.wit_values.specs.facts.VersionFacts.{version_cmp_total, version_eq_equiv, version_po, version_ties};
ghost use Rattle.std.specs.Cmp.{partial_equiv_from_equiv};
ghost use Rattle.std.specs.Cmp.Rules.{hashing};
ghost use Rattle.std.proofs.Common.{rules};
ghost use Rattle.std.specs.Hash as fed;

use crate::TryClone;
use std::alloc::{AllocError, Global};
use std::cmp::Ordering;
use std::fmt;
use std::hash::{Hash, Hasher};
use std::marker::Model;

/// A version as SemVer 2.0.0 has it. Versions are ordered by the total order of the `semver` crate, which compares
/// build metadata too, so versions of equal order are equal. It lies on the heap, so that what has one, or none, stays
/// small.
///
/// Source: SemVer 2.0.0; `Version` of the `semver` crate.
#[derive(Drop)]
pub struct Version {
    inner: Box<semver::Version>,
}

impl Model for Version {
    ghost use Rattle.std.specs.Prelude.{List, ℕ};
    ghost use Rattle.semver.specs.Identifiers.{parts_of};

    ghost Value = { ℕ × ℕ × ℕ × List ℕ × List ℕ };

    ghost view = { λ v. parts_of v.inner.value };
}

impl Version {
    /// The version of a text, as the `semver` crate reads it, or that crate's error: of memory, or of what is wrong
    /// with a text that is no version.
    ///
    /// Source: `Version::parse` of the `semver` crate.
    pub fn parse(alloc: Global, text: &str) -> Result<Version, semver::Error>
        ensures ok { IfOk result (λ v. version_parts text.now ≡ Ok v) }
        ensures cause { IfErr result (λ e. (e ≡ memory_error) ⊎ (version_parts text.now ≡ Err e)) }
        ensures refused { IsRefused (version_parts text.now) result }
    {
        let version = semver::Version::parse(alloc, text)?;
        Ok(Version::from_version(alloc, version)?)
    }

    /// The same version. The only error is want of memory.
    pub fn from_version(alloc: Global, version: semver::Version) -> Result<Version, AllocError>
        ensures { IfOk result (λ v. v ≡ parts_of version) }
    {
        let inner = Box::new(alloc, version)?;
        Ok(Version { inner })
    }

    /// The version that it keeps.
    pub fn into_version(self) -> semver::Version
        ensures { parts_of result ≡ self }
    {
        Box::into_inner(self.inner)
    }

    /// The version that it keeps, to look at.
    pub fn as_version(&self) -> &semver::Version
        ensures { parts_of result.now ≡ self.now }
    {
        self.inner.as_ref()
    }

    /// The allocator that the version was made with, of which contracts say nothing.
    pub fn allocator(&self) -> Global {
        *Box::allocator(&self.inner)
    }

    /// The first number.
    pub fn major(&self) -> u64
        ensures { result ≡ self.now.0 }
    {
        self.as_version().major
    }

    /// The second number.
    pub fn minor(&self) -> u64
        ensures { result ≡ self.now.1 }
    {
        self.as_version().minor
    }

    /// The third number.
    pub fn patch(&self) -> u64
        ensures { result ≡ self.now.2 }
    {
        self.as_version().patch
    }

    /// The text of the pre-release without its `-`, empty where there is none.
    pub fn pre(&self) -> &str
        ensures { result.now ≡ self.now.3 }
    {
        self.as_version().pre.as_str()
    }

    /// The text of the build metadata without its `+`, empty where there is none.
    pub fn build(&self) -> &str
        ensures { result.now ≡ self.now.4 }
    {
        self.as_version().build.as_str()
    }
}

impl TryClone for Version {
    fn try_clone(&self) -> Result<Version, AllocError> {
        let version = self.inner.as_ref().clone()?;
        Version::from_version(self.allocator(), version)
    }
}

impl fmt::Display for Version {
    ghost output = { λ v. Some (parts_text v) };

    fn fmt<W: fmt::Write>(&self, f: &mut fmt::Formatter<W>) -> fmt::Result {
        fmt::Display::fmt(self.as_version(), f)
    }
}

impl PartialEq for Version {
    ghost eq = { version_eq };

    ghost laws = { partial_equiv_from_equiv version_eq_equiv };

    fn eq(&self, other: &Version) -> bool {
        self.as_version() == other.as_version()
    }
}

impl Eq for Version {
    ghost laws = { version_eq_equiv };
}

impl PartialOrd for Version {
    ghost partial_cmp = { λ a b. Some (version_cmp a b) };

    ghost laws = { version_po };

    fn partial_cmp(&self, other: &Version) -> Option<Ordering> {
        Some(self.cmp(other))
    }
}

impl Ord for Version {
    ghost cmp = { version_cmp };

    ghost total = { version_cmp_total };

    ghost matches_partial_cmp = { λ a b. refl };

    ghost matches_eq = { version_ties };

    fn cmp(&self, other: &Version) -> Ordering {
        self.as_version().cmp(other.as_version())
    }
}

impl Hash for Version {
    ghost hash_input = { λ v. fed.u64 v.0 ++ fed.u64 v.1 ++ fed.u64 v.2 ++ fed.str v.3
        ++ fed.str v.4 };

    ghost respects_eq = { Prim.search (hashing, rules) };

    fn hash<H: Hasher>(&self, state: &mut H) {
        self.as_version().hash(state);
    }
}

impl fmt::Debug for Version {
    fn fmt<W: fmt::Write>(&self, f: &mut fmt::Formatter<W>) -> fmt::Result {
        fmt::Debug::fmt(self.as_version(), f)
    }
}
