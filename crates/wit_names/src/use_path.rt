//! Kebab names and use paths, by which WIT names things.
ghost use Rattle.std.specs.Prelude.{◌≡◌, ◌↔◌, ◌<◌, ◌==◌, slice_index, Some, None, IfOk, IsErr, IsTrue};
ghost use Rattle.semver.specs.Parse.{memory_error, version_parts};
ghost use Rattle.std.specs.Char.{is_ascii_alphabetic};
ghost use Rattle.std.specs.List.{before_first, after_first, list_all, slice_split};
ghost use Rattle.wit_names.specs.UsePath.{IsKebabName, IsUsePath, is_word, package_path_of, use_path_fault_text, use_path_of, version_after};
ghost use Rattle.wit_names.specs.declared.use_path.ParsedUsePath.{ParsedUsePath};
ghost use Rattle.wit_names.specs.steps.Parts.{is_lower, is_upper};

use crate::package_name::PackageName;
use std::alloc::{AllocError, Global};
use std::error::Error;
use std::fmt;
use wit_values::{Text, TryClone, Version, try_clone_two};

/// What a use path names.
///
/// Source: `ParsedUsePath` of wit-parser 0.263.0.
#[derive(Drop)]
pub enum ParsedUsePath {
    /// A name alone.
    Name(Text),
    /// A package, and a name in it.
    Package(PackageName, Text),
}

impl TryClone for ParsedUsePath {
    fn try_clone(&self) -> Result<ParsedUsePath, AllocError> {
        match self {
            ParsedUsePath::Name(name) => Ok(ParsedUsePath::Name(name.try_clone()?)),
            ParsedUsePath::Package(package, name) => {
                let (package, name) = try_clone_two(package, name)?;
                Ok(ParsedUsePath::Package(package, name))
            }
        }
    }
}

/// Why a text is not read as a use path.
#[derive(Clone, Copy, Debug, PartialEq, Eq)]
pub enum UsePathFault {
    /// The text is no use path.
    Invalid,
    /// Memory was refused.
    OutOfMemory,
}

impl fmt::Display for UsePathFault {
    ghost output = { λ fault. Some (use_path_fault_text fault) };

    fn fmt<W: fmt::Write>(&self, f: &mut fmt::Formatter<W>) -> fmt::Result {
        match self {
            UsePathFault::Invalid => f.write_str("invalid use path"),
            UsePathFault::OutOfMemory => f.write_str("out of memory"),
        }
    }
}

impl Error for UsePathFault {}

impl From<AllocError> for UsePathFault {
    ghost use Rattle.std.specs.Prelude.{◌≡◌};
    ghost use Rattle.wit_names.specs.declared.use_path.UsePathFault.TheVariants.{OutOfMemory};

    ghost from_gives = { λ _ fault. fault ≡ OutOfMemory };

    fn from(_error: AllocError) -> UsePathFault {
        UsePathFault::OutOfMemory
    }
}

/// Whether a text is a kebab name: words of ASCII letters and digits joined by single `-`, the
/// first of which begins with a letter, and the letters of each word all lower or all upper case.
///
/// Source: WIT.md of the component model.
#[tactic(auto, unfolding(crate::specs::UsePath::is_kebab_name))]
pub fn is_kebab_name(text: &str) -> bool
    ensures { IsTrue result ↔ IsKebabName text.now }
{
    begins_with_letter(text) && are_words(text)
}

/// Whether the first character of a text is an ASCII letter.
fn begins_with_letter(text: &str) -> bool
    ensures { result ≡ is_ascii_alphabetic (slice_index text.now 0) }
{
    match text.as_bytes().first() {
        Some(b) => b.is_ascii_alphabetic(),
        None => false,
    }
}

/// Whether what stands between the dashes of a text are words.
fn are_words(text: &str) -> bool
    ensures { result ≡ list_all is_word (slice_split (λ b. b == 45) text.now) }
{
    text.split('-').all(|word| is_word(word))
}

/// Whether a text consists of letters of one case and digits, at least one.
fn is_word(text: &str) -> bool
    ensures { result ≡ is_word text.now }
{
    let bytes = text.as_bytes();
    !bytes.is_empty() && (are_lower(bytes) || are_upper(bytes))
}

/// Whether each byte is a lower case letter or a digit.
fn are_lower(bytes: &[u8]) -> bool
    ensures { result ≡ list_all is_lower bytes.now }
{
    bytes
        .iter()
        .all(|b| b.is_ascii_lowercase() || b.is_ascii_digit())
}

/// Whether each byte is an upper case letter or a digit.
fn are_upper(bytes: &[u8]) -> bool
    ensures { result ≡ list_all is_upper bytes.now }
{
    bytes
        .iter()
        .all(|b| b.is_ascii_uppercase() || b.is_ascii_digit())
}

/// Reads a use path: a name alone, or `ns:pkg/name` with `@version` or without. The names are kebab
/// names, and the version is one that the `semver` crate reads. The fault is `Invalid` exactly
/// where the text is no use path, and else only want of memory.
///
/// Source: `parse_use_path` of wit-parser 0.263.0; WIT.md of the component model.
#[tactic(auto, unfolding(crate::specs::UsePath::use_path_of))]
pub fn parse_use_path(alloc: Global, text: &str) -> Result<ParsedUsePath, UsePathFault>
    ensures ok { IfOk result (λ path. use_path_of text.now ≡ Some path) }
    ensures invalid { (result ≡ Err UsePathFault.Invalid) ↔ (use_path_of text.now ≡ None) }
    ensures grammar { (path : ParsedUsePath)
        → (use_path_of text.now ≡ Some path) ↔ IsUsePath text.now path }
{
    if is_kebab_name(text) {
        Ok(ParsedUsePath::Name(Text::try_from_str(alloc, text)?))
    } else {
        let (namespace, rest) = parts_around(text, ':');
        let (package_name, tail) = parts_around(rest, '/');
        parse_package_path(alloc, namespace, package_name, tail)
    }
}

/// Reads what stands round the `:` and the `/` of a use path.
fn parse_package_path(
    alloc: Global,
    namespace: &str,
    package_name: &str,
    tail: &str,
) -> Result<ParsedUsePath, UsePathFault>
    ensures ok { IfOk result
        (λ path. package_path_of namespace.now package_name.now tail.now ≡ Some path) }
    ensures invalid { (result ≡ Err UsePathFault.Invalid)
        ↔ (package_path_of namespace.now package_name.now tail.now ≡ None) }
{
    let (name, _) = parts_around(tail, '@');
    if !(is_kebab_name(namespace) && is_kebab_name(package_name) && is_kebab_name(name)) {
        return Err(UsePathFault::Invalid);
    }
    let version = parse_version_after(alloc, tail)?;
    Ok(package_path(alloc, namespace, package_name, version, name)?)
}

/// The path of these parts, copied.
fn package_path(
    alloc: Global,
    namespace: &str,
    package_name: &str,
    version: Option<Version>,
    name: &str,
) -> Result<ParsedUsePath, AllocError>
    ensures { IfOk result (λ path.
        path
        ≡ ParsedUsePath.Package
        (record { namespace = namespace.now; name = package_name.now; version = version })
        name.now) }
{
    let namespace = Text::try_from_str(alloc, namespace)?;
    let package_name = Text::try_from_str(alloc, package_name)?;
    let name = Text::try_from_str(alloc, name)?;
    let package = PackageName::new(namespace, package_name, version);
    Ok(ParsedUsePath::Package(package, name))
}

/// What stands before and after the first such character: all and nothing, where it isn't there.
fn parts_around(text: &str, separator: char) -> (&str, &str)
    requires { separator < 128 }
    ensures before { result.0.now ≡ before_first (λ b. b == separator) text.now }
    ensures after { result.1.now ≡ after_first (λ b. b == separator) text.now }
{
    match text.split_once(separator) {
        Some(parts) => parts,
        None => (text, ""),
    }
}

/// The version after the `@`, where there is one.
fn parse_version_after(alloc: Global, tail: &str) -> Result<Option<Version>, UsePathFault>
    ensures ok { IfOk result (λ version. version_after tail.now ≡ Some version) }
    ensures invalid { (result ≡ Err UsePathFault.Invalid) ↔ (version_after tail.now ≡ None) }
{
    match tail.split_once('@') {
        Some((_, text)) => Ok(Some(parse_version(alloc, text)?)),
        None => Ok(None),
    }
}

/// The version of a text.
pub(crate) fn parse_version(alloc: Global, text: &str) -> Result<Version, UsePathFault>
    ensures ok { IfOk result (λ version. version_parts text.now ≡ Ok version) }
    ensures invalid { (result ≡ Err UsePathFault.Invalid) ↔ IsErr (version_parts text.now) }
{
    match semver::Version::parse(alloc, text) {
        Ok(version) => Ok(Version::from_version(alloc, version)?),
        Err(error) => Err(version_fault(error)),
    }
}

/// What an error of the `semver` crate is here.
fn version_fault(error: semver::Error) -> UsePathFault
    ensures { (result ≡ UsePathFault.OutOfMemory) ↔ (error ≡ memory_error) }
{
    if error == semver::Error::from(AllocError) {
        UsePathFault::OutOfMemory
    } else {
        UsePathFault::Invalid
    }
}
