//! Names of packages.
ghost use Rattle.std.specs.Prelude.{◌≡◌, ◌↔◌, IfOk, IsTrue, Some};
ghost use Rattle.semver.specs.Grammar.{IsValid};
ghost use Rattle.wit_names.specs.PackageName.{HasValidVersion, package_name_text};

use crate::use_path::{UsePathFault, parse_version};
use std::alloc::{AllocError, Global};
use std::fmt;
use wit_values::{Text, TryClone, Version, try_clone_three};

/// The name of a package, as `wasi:http@0.2.0` or `foo:bar`. Names are ordered by the namespace,
/// then the name, then the version, a name without a version first.
///
/// Source: `PackageName` of wit-parser 0.263.0.
#[derive(Debug, PartialEq, Eq, PartialOrd, Ord, Hash)]
pub struct PackageName {
    pub namespace: Text,
    pub name: Text,
    pub version: Option<Version>,
}

/// As the derived one: each field is let go. A call of it costs the check less than a derived one,
/// which is checked again wherever a value is let go.
impl Drop for PackageName {
    fn drop(self) {
        let PackageName {
            namespace,
            name,
            version,
        } = self;
        drop(namespace);
        drop(name);
        drop(version);
    }
}

impl PackageName {
    /// The name of these parts, which takes no memory.
    pub fn new(namespace: Text, name: Text, version: Option<Version>) -> PackageName
        ensures { result ≡ record { namespace = namespace; name = name; version = version } }
    {
        PackageName {
            namespace,
            name,
            version,
        }
    }

    /// Whether the version, where there is one, is one of SemVer 2.0.0, as each is that was read from a text. The only error
    /// is want of memory.
    ///
    /// Source: SemVer 2.0.0, with numbers of 64 bits as the `semver` crate has them.
    pub fn has_valid_version(&self, alloc: Global) -> Result<bool, AllocError>
        ensures { IfOk result (λ valid. IsTrue valid ↔ HasValidVersion self.now) }
    {
        match &self.version {
            Some(version) => is_valid(alloc, version),
            None => Ok(true),
        }
    }
}

/// Whether a version is what its text reads as.
fn is_valid(alloc: Global, version: &Version) -> Result<bool, AllocError>
    ensures { IfOk result (λ valid. IsTrue valid ↔ IsValid version.now) }
{
    let text = version.to_string(alloc)?;
    match parse_version(alloc, &text) {
        Ok(read) => Ok(read == *version),
        Err(UsePathFault::Invalid) => Ok(false),
        Err(UsePathFault::OutOfMemory) => Err(AllocError),
    }
}

impl TryClone for PackageName {
    fn try_clone(&self) -> Result<PackageName, AllocError> {
        let (namespace, name, version) = try_clone_three(
            &self.namespace,
            &self.name,
            &self.version,
        )?;
        Ok(PackageName {
            namespace,
            name,
            version,
        })
    }
}

/// `namespace:name`, and `@version` where there is one.
impl fmt::Display for PackageName {
    ghost output = { λ p. Some (package_name_text p) };

    fn fmt<W: fmt::Write>(&self, f: &mut fmt::Formatter<W>) -> fmt::Result {
        let namespace = &self.namespace;
        let name = &self.name;
        write!(f, "{namespace}:{name}")?;
        if let Some(version) = &self.version {
            write!(f, "@{version}")?;
        }
        Ok(())
    }
}
