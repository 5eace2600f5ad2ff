//! What single tokens say.
ghost use Rattle.std.specs.Option.{option_copied};
ghost use Rattle.std.specs.Prelude.{◌≡◌, ◌+◌, ◌<◌, length, IfSome};
ghost use Rattle.wit_script_lines.specs.steps.ReadResult.{IsRead};
ghost use Rattle.wit_script_lines.specs.Token.{after_prefix, inside, name_after, package_name_of, package_with, part_of, path_of, primitive_of, version_of};

use crate::fault::LineFault;
use std::alloc::{AllocError, Global};
use wit_data::{PackageName, ParsedUsePath, Text, Type_, UsePathFault, Version, parse_use_path};

/// A part of a line, which has at least one byte: an empty one isn't understood. Else only want of
/// memory is an error.
pub fn read_part(alloc: Global, text: &str) -> Result<Text, LineFault>
    ensures { IsRead (part_of text.now) result }
{
    if text.is_empty() {
        return Err(LineFault::NotUnderstood);
    }
    Ok(Text::try_from_str(alloc, text)?)
}

/// The version that a text is by the `semver` crate. A text that is none isn't understood. Else only
/// want of memory is an error.
///
/// Source: SemVer 2.0.0.
pub fn read_version(alloc: Global, text: &str) -> Result<Version, LineFault>
    ensures { IsRead (version_of text.now) result }
{
    match semver::Version::parse(alloc, text) {
        Ok(version) => Ok(Version::from_version(alloc, version)?),
        Err(error) => {
            if error == semver::Error::from(AllocError) {
                return Err(LineFault::OutOfMemory);
            }
            Err(LineFault::NotUnderstood)
        }
    }
}

/// The package name that a token is, `namespace:name` or `namespace:name@version`. The namespace ends
/// at the first colon, and the name at the first `@` after it. Whether these are kebab names isn't
/// asked. Not understood where there is no colon, the namespace or the name is empty, or what follows
/// the `@` is no version. Else only want of memory is an error.
pub fn read_package_name(alloc: Global, token: &str) -> Result<PackageName, LineFault>
    ensures { IsRead (package_name_of token.now) result }
{
    match token.split_once(':') {
        Some((namespace, rest)) => name_after(alloc, namespace, rest),
        None => Err(LineFault::NotUnderstood),
    }
}

/// `name` or `name@version` after a namespace.
fn name_after(alloc: Global, namespace: &str, rest: &str) -> Result<PackageName, LineFault>
    ensures { IsRead (name_after namespace.now rest.now) result }
{
    match rest.split_once('@') {
        Some((name, version)) => {
            let version = read_version(alloc, version)?;
            package_with(alloc, namespace, name, Some(version))
        }
        None => package_with(alloc, namespace, rest, None),
    }
}

/// A package of these parts.
fn package_with(
    alloc: Global,
    namespace: &str,
    name: &str,
    version: Option<Version>,
) -> Result<PackageName, LineFault>
    ensures { IsRead (package_with namespace.now name.now version) result }
{
    let namespace = read_part(alloc, namespace)?;
    let name = read_part(alloc, name)?;
    Ok(PackageName::new(namespace, name, version))
}

/// What a path names: with a colon, an interface or a world of another package, by a use path; else one
/// of the same, by its name. Not understood where it is no use path, or empty. Else only want of memory
/// is an error.
pub fn read_path(alloc: Global, path: &str) -> Result<ParsedUsePath, LineFault>
    ensures { IsRead (path_of path.now) result }
{
    if !path.as_bytes().contains(&b':') {
        return Ok(ParsedUsePath::Name(read_part(alloc, path)?));
    }
    match parse_use_path(alloc, path) {
        Ok(path) => Ok(path),
        Err(UsePathFault::Invalid) => Err(LineFault::NotUnderstood),
        Err(UsePathFault::OutOfMemory) => Err(LineFault::OutOfMemory),
    }
}

/// The primitive type that a token is in WIT's spelling, or None.
///
/// Source: WIT.md of the component model.
pub fn primitive(token: &str) -> Option<Type_>
    ensures { result ≡ primitive_of token.now }
{
    match token {
        "bool" => Some(Type_::Bool),
        "u8" => Some(Type_::U8),
        "u16" => Some(Type_::U16),
        "u32" => Some(Type_::U32),
        "u64" => Some(Type_::U64),
        "s8" => Some(Type_::S8),
        "s16" => Some(Type_::S16),
        "s32" => Some(Type_::S32),
        "s64" => Some(Type_::S64),
        "f32" => Some(Type_::F32),
        "f64" => Some(Type_::F64),
        "char" => Some(Type_::Char),
        "string" => Some(Type_::String),
        "error-context" => Some(Type_::ErrorContext),
        _ => None,
    }
}

/// What follows a word at the beginning of a text, or None where the text doesn't begin with it.
pub fn after_prefix<'a>(word: &str, text: &'a str) -> Option<&'a str>
    ensures after { option_copied result ≡ after_prefix word.now text.now }
    ensures shorter { IfSome result (λ rest. length rest.now + length word.now ≡ length text.now) }
{
    text.strip_prefix(word)
}

/// What stands inside `WORD<..>`, or None where the text isn't so; the word is given with its `<`.
pub fn inside<'a>(opening: &str, text: &'a str) -> Option<&'a str>
    ensures inside { option_copied result ≡ inside opening.now text.now }
    ensures shorter { IfSome result (λ inner. length inner.now < length text.now) }
{
    let rest = after_prefix(opening, text)?;
    rest.strip_suffix(">")
}
