//! That one thing leads to another, each by its name as refusals tell it.
ghost use Rattle.std.specs.Prelude.{◌≡◌, IfOk, Some, option_copied};
ghost use Rattle.wit_names.specs.PackageName.{package_name_text, version_suffix};
ghost use Rattle.wit_ways.specs.Arrows.{arrow_between, called, item_text, placed};

use std::alloc::{AllocError, Global};
use std::fmt;
use wit_data::{InterfaceId, PackageName, Span, Text, TryClone, Version};
use wit_values::try_clone_two;

/// That one thing leads to another, each by its name, and where that stands, unknown where no line says it.
#[derive(Drop)]
pub struct Arrow {
    pub from: Text,
    pub to: Text,
    pub span: Span,
}

impl TryClone for Arrow {
    fn try_clone(&self) -> Result<Arrow, AllocError> {
        let (from, to) = try_clone_two(&self.from, &self.to)?;
        let span = self.span;
        Ok(Arrow { from, to, span })
    }
}

/// What leads from one name to another, where they differ.
pub fn arrow_between(from: &Text, span: Span, to: &Text) -> Result<Option<Arrow>, AllocError>
    ensures { IfOk result (λ arrow. arrow ≡ arrow_between (Some from.now) span (Some to.now)) }
{
    if *from == *to {
        return Ok(None);
    }
    let (from, to) = try_clone_two(from, to)?;
    Ok(Some(Arrow { from, to, span }))
}

/// What an interface is called, by these names.
pub fn called(names: &[Option<Text>], id: InterfaceId) -> Option<&Text>
    ensures { option_copied result ≡ called names.now id }
{
    match names.get(id.index()) {
        Some(Some(name)) => Some(name),
        _ => None,
    }
}

/// A span so many positions further on; unknown where it would pass 4294967295.
pub fn placed(span: Span, offset: u32) -> Span
    ensures { result ≡ placed offset span }
{
    match span.moved(offset) {
        Some(moved) => moved,
        None => Span::unknown(),
    }
}

/// `namespace:name`, and `@version` where there is one.
pub fn package_text(alloc: Global, package: &PackageName) -> Result<Text, AllocError>
    ensures { IfOk result (λ text. text ≡ package_name_text «package».now) }
{
    Ok(Text::from_string(package.to_string(alloc)?))
}

/// `namespace:package/name`, and `@version` where there is one.
pub fn item_text(alloc: Global, package: &PackageName, name: &str) -> Result<Text, AllocError>
    ensures { IfOk result (λ text. text ≡ item_text «package».now name.now) }
{
    let (namespace, package_name) = (&package.namespace, &package.name);
    let suffix = VersionSuffix(&package.version);
    let text = format!(in alloc; "{namespace}:{package_name}/{name}{suffix}")?;
    Ok(Text::from_string(text))
}

/// `@` and the version, where there is one.
#[derive(Drop)]
struct VersionSuffix<'a>(&'a Option<Version>);

impl<'a> fmt::Display for VersionSuffix<'a> {
    ghost output = { λ s. Some (version_suffix s.0.now) };

    fn fmt<W: fmt::Write>(&self, f: &mut fmt::Formatter<W>) -> fmt::Result {
        match self.0 {
            Some(version) => write!(f, "@{version}"),
            None => Ok(()),
        }
    }
}
