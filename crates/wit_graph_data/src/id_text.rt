//! What is asked of a graph.
ghost use Rattle.std.specs.Prelude.{◌≡◌, IfOk, IfErr, Some, string_bytes};
ghost use Rattle.wit_names.specs.PackageName.{version_suffix};
ghost use Rattle.std.specs.Option.{option_map};
ghost use Rattle.wit_graph_data.specs.declared.error_kind.ResolveErrorKind.TheVariants.{OutOfMemory};
ghost use Rattle.wit_graph_data.specs.IdText.{id_text, interface_id_at, key_text};
ghost use Rattle.wit_graph_data.specs.steps.Parts.{id_text_in};

use crate::error::ResolveResult;
use crate::graph::Graph;
use std::alloc::{AllocError, Global};
use std::fmt;
use wit_data::{InterfaceId, PackageId, PackageName, Version, WorldKey};

impl Graph {
    /// The id text of an interface or a world of this name in a package: `namespace:package/name`,
    /// and `@version` where the package has one. Empty where the package isn't there. The only
    /// refusal is want of memory (28).
    ///
    /// Source: `id_of_name` of wit-parser 0.263.0.
    pub fn id_of_name(&self, alloc: Global, package: PackageId, name: &str) -> ResolveResult<String>
        ensures text { IfOk result
            (λ text. string_bytes text ≡ id_text self.now.packages «package» name.now) }
        ensures memory { IfErr result (λ e. e ≡ OutOfMemory) }
    {
        match self.packages.get(package.index()) {
            Some(package) => Ok(id_in(alloc, &package.name, name)?),
            None => Ok(String::new(alloc)),
        }
    }

    /// The id text of an interface, None where it has no name or no package, or isn't there. The
    /// only refusal is want of memory (28).
    ///
    /// Source: `id_of` of wit-parser 0.263.0.
    pub fn id_of(&self, alloc: Global, id: InterfaceId) -> ResolveResult<Option<String>>
        ensures text { IfOk result (λ text.
            option_map string_bytes text
            ≡ interface_id_at self.now.packages self.now.interfaces id) }
        ensures memory { IfErr result (λ e. e ≡ OutOfMemory) }
    {
        let Some(interface) = self.interfaces.get(id.index()) else {
            return Ok(None);
        };
        let Some(name) = &interface.name else {
            return Ok(None);
        };
        let Some(package) = interface.package else {
            return Ok(None);
        };
        Ok(Some(self.id_of_name(alloc, package, name.as_str())?))
    }

    /// What names a key of a world: a label as it stands, an interface by its id text, which is
    /// empty where the interface has none. The only refusal is want of memory (28).
    ///
    /// Source: `name_world_key` of wit-parser 0.263.0.
    pub fn name_world_key(&self, alloc: Global, key: &WorldKey) -> ResolveResult<String>
        ensures text { IfOk result
            (λ text. string_bytes text ≡ key_text self.now.packages self.now.interfaces key.now) }
        ensures memory { IfErr result (λ e. e ≡ OutOfMemory) }
    {
        match key {
            WorldKey::Name(label) => Ok(String::from_str(alloc, label.as_str())?),
            WorldKey::Interface(id) => match self.id_of(alloc, *id)? {
                Some(text) => Ok(text),
                None => Ok(String::new(alloc)),
            },
        }
    }
}

/// `namespace:package/name`, and `@version` where the package has one.
fn id_in(alloc: Global, package: &PackageName, name: &str) -> Result<String, AllocError>
    ensures { IfOk result (λ text. string_bytes text ≡ id_text_in «package».now name.now) }
{
    let namespace = &package.namespace;
    let package_name = &package.name;
    let suffix = VersionSuffix(&package.version);
    format!(in alloc; "{namespace}:{package_name}/{name}{suffix}")
}

/// `@` and the version, where there is one.
#[derive(Drop)]
struct VersionSuffix<'a>(&'a Option<Version>);

impl<'a> fmt::Display for VersionSuffix<'a> {
    ghost output = { λ s. Some (version_suffix s.0.now) };

    fn fmt<W: fmt::Write>(&self, f: &mut fmt::Formatter<W>) -> fmt::Result {
        match self.0 {
            Some(version) => write!(f, "@{version}"),
            None => Ok(()),
        }
    }
}
