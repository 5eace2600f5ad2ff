//! Names and paths.
ghost use Rattle.std.specs.Prelude.{◌≡◌, IfOk, Some, option_copied, string_bytes, unwrap_or, []};
ghost use Rattle.wit_names.specs.PackageName.{version_suffix};
ghost use Rattle.wit_print.specs.Names.{name_wit, foreign_package, path_from, path_in, path_wit};

use crate::printer::Printer;
use std::alloc::{AllocError, Global};
use std::fmt;
use wit_data::{Interface, InterfaceId, PackageId, PackageName, Text, Version};
use wit_graph_data::Package;
use wit_text::Keyword;

/// A name, behind a `%` if WIT has taken the word.
#[derive(Clone, Copy)]
pub struct Name<'a>(pub &'a str);

impl fmt::Display for Name<'_> {
    ghost output = { λ n. Some (name_wit n.0.now) };

    #[tactic(auto, unfolding(crate::specs::Names::name_wit))]
    fn fmt<W: fmt::Write>(&self, f: &mut fmt::Formatter<W>) -> fmt::Result {
        let sign = match Keyword::from_word(self.0) {
            Some(_) => "%",
            None => "",
        };
        let word = self.0;
        write!(f, "{sign}{word}")
    }
}

/// `@` and a version, where there is one.
#[derive(Clone, Copy)]
pub struct VersionSuffix<'a>(pub &'a Option<Version>);

impl fmt::Display for VersionSuffix<'_> {
    ghost output = { λ v. Some (version_suffix v.0.now) };

    fn fmt<W: fmt::Write>(&self, f: &mut fmt::Formatter<W>) -> fmt::Result {
        match self.0 {
            Some(version) => write!(f, "@{version}"),
            None => Ok(()),
        }
    }
}

/// A name, or no text.
pub fn text_or_empty(name: &Option<Text>) -> &str
    ensures { result.now ≡ unwrap_or name.now [] }
{
    match name {
        Some(name) => name.as_str(),
        None => "",
    }
}

impl Printer<'_> {
    /// What the package at home calls an interface. Empty if that isn't there.
    #[tactic(auto, unfolding(crate::specs::Names::path_wit))]
    pub fn path(&self, id: InterfaceId) -> Result<String, AllocError>
        ensures { IfOk result
            (λ text. string_bytes text ≡ path_wit self.now.graph.now self.now.home id) }
    {
        match self.graph.interfaces.get(id.index()) {
            Some(interface) => self.path_to(interface),
            None => Ok(String::new(self.alloc)),
        }
    }

    /// What the package at home calls this interface.
    fn path_to(&self, interface: &Interface) -> Result<String, AllocError>
        ensures { IfOk result (λ text. string_bytes text
            ≡ path_from self.now.graph.now.packages self.now.home interface.now) }
    {
        let name = text_or_empty(&interface.name);
        match self.foreign_package(interface.package) {
            Some(package) => path_in(self.alloc, &package.name, name),
            None => alone(self.alloc, name),
        }
    }

    /// The package of an owner, if it is there and isn't at home.
    fn foreign_package(&self, owner: Option<PackageId>) -> Option<&Package>
        ensures { option_copied result
            ≡ foreign_package self.now.graph.now.packages self.now.home owner }
    {
        let id = owner?;
        if self.home == Some(id) {
            return None;
        }
        self.graph.packages.get(id.index())
    }
}

/// A name alone.
fn alone(alloc: Global, name: &str) -> Result<String, AllocError>
    ensures { IfOk result (λ text. string_bytes text ≡ name_wit name.now) }
{
    let name = Name(name);
    format!(in alloc; "{name}")
}

/// The path of a name in a package.
fn path_in(alloc: Global, package: &PackageName, name: &str) -> Result<String, AllocError>
    ensures { IfOk result (λ text. string_bytes text ≡ path_in «package».now name.now) }
{
    let name = Name(name);
    let namespace = Name(package.namespace.as_str());
    let package_name = Name(package.name.as_str());
    let suffix = VersionSuffix(&package.version);
    format!(in alloc; "{namespace}:{package_name}/{name}{suffix}")
}
