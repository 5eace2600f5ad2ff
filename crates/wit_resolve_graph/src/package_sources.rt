//! The sources of packages, by their names.
ghost use Rattle.std.specs.Prelude.{◌≡◌, ◌∷◌, [], IfErr, IfOk, length, map};
ghost use Rattle.std.specs.Iterator.{YieldsFirstBy, item_count};
ghost use Rattle.wit_graph_data.specs.declared.error_kind.ResolveErrorKind.TheVariants.{OutOfMemory};
ghost use Rattle.wit_resolve_graph.specs.SourceNames.{ArePlaced, all_names, names_of, package_names};

use crate::source_names::{add_unseen, names_of};
use std::alloc::{AllocError, Global};
use std::collections::BTreeMap;
use std::marker::Model;
use std::slice;
use wit_data::{Items, PackageId, SourceMap, Text, TryClone};
use wit_graph_data::ResolveResult;
use wit_values::NameSet;

/// The names of the sources that packages come from.
///
/// Source: `PackageSources` of wit-parser 0.263.0.
#[derive(Debug, Drop)]
pub struct PackageSources {
    sources: Items<Items<Text>>,
    places: BTreeMap<PackageId, usize>,
}

impl Model for PackageSources {
    ghost use Rattle.std.specs.Prelude.{length};
    ghost use Rattle.wit_resolve_graph.specs.SourceNames.{ArePlaced, NamesOf};

    ghost Value = { NamesOf };

    ghost view = { λ s. record { sources = s.sources; places = s.places.entries } };

    ghost invariant = { λ s. ArePlaced s.places.entries (length s.sources) };
}

impl PackageSources {
    /// One source, from which this package comes. The only refusal is want of memory (28).
    ///
    /// Source: `from_single_source` of wit-parser 0.263.0.
    pub fn from_single_source(
        alloc: Global,
        package: PackageId,
        source: &str,
    ) -> ResolveResult<PackageSources>
        ensures ok { IfOk result
            (λ s. s ≡ record { sources = (source.now ∷ []) ∷ []; places = («package», 0) ∷ [] }) }
        ensures memory { IfErr result (λ e. e ≡ OutOfMemory) }
    {
        Ok(single_source(alloc, package, source)?)
    }

    /// The sources of these maps, and for each listed package the index of its map, from 0, which
    /// is that of one of the maps. The only refusal is want of memory (28).
    ///
    /// Source: `from_source_maps` of wit-parser 0.263.0.
    pub fn from_source_maps(
        alloc: Global,
        source_maps: Vec<SourceMap>,
        places: BTreeMap<PackageId, usize>,
    ) -> ResolveResult<PackageSources>
        requires { ArePlaced places.entries (length source_maps.items) }
        ensures ok { IfOk result
            (λ s. s ≡ record { sources = names_of source_maps.items; places = places.entries }) }
        ensures memory { IfErr result (λ e. e ≡ OutOfMemory) }
    {
        let sources = names_of(alloc, &source_maps)?;
        Ok(PackageSources { sources, places })
    }

    /// The names of all sources, each once, in the order in which they come first. The only refusal
    /// is want of memory (28).
    ///
    /// Source: `source_names` of `PackageSources` of wit-parser 0.263.0.
    pub fn source_names(&self, alloc: Global) -> ResolveResult<Vec<&str>>
        ensures ok { IfOk result
            (λ names. map (λ name. name.now) names.items ≡ all_names self.now) }
        ensures memory { IfErr result (λ e. e ≡ OutOfMemory) }
    {
        let mut seen = NameSet::new(alloc);
        let mut found = Vec::new(alloc);
        for names in self.sources.as_slice() {
            add_unseen(alloc, names.as_slice(), &mut seen, &mut found)?;
        }
        Ok(found)
    }

    /// The names of a package's sources, in order, or None where the package isn't listed.
    ///
    /// Source: `package_source_names` of wit-parser 0.263.0.
    pub fn package_source_names(&self, id: PackageId) -> Option<PackageSourceNames<'_>>
        ensures { result ≡ package_names self.now id }
    {
        let place = *self.places.get(&id)?;
        let names = self.sources.at(place);
        Some(PackageSourceNames {
            names: names.iter(),
        })
    }
}

/// One source, from which this package comes.
fn single_source(
    alloc: Global,
    package: PackageId,
    source: &str,
) -> Result<PackageSources, AllocError>
    ensures { IfOk result
        (λ s. s ≡ record { sources = (source.now ∷ []) ∷ []; places = («package», 0) ∷ [] }) }
{
    let mut names = Items::new(alloc);
    names.push(Text::try_from_str(alloc, source)?)?;
    let mut sources = Items::new(alloc);
    sources.push(names)?;
    let mut places = BTreeMap::new(alloc);
    places.insert(package, 0).map_err(AllocError::from)?;
    Ok(PackageSources { sources, places })
}

impl TryClone for PackageSources {
    fn try_clone(&self) -> Result<PackageSources, AllocError> {
        Ok(PackageSources {
            sources: self.sources.try_clone()?,
            places: self.places.clone()?,
        })
    }
}

/// The names of a package's sources, in order.
#[derive(Drop)]
pub struct PackageSourceNames<'a> {
    names: slice::Iter<'a, Text>,
}

impl<'a> Model for PackageSourceNames<'a> {
    ghost use Rattle.std.specs.Prelude.{List, ℕ};
    ghost use Rattle.std.specs.Slice.Iter.{iter_rest};

    ghost Value = { List (List ℕ) };

    ghost view = { λ names. iter_rest names.names };
}

impl<'a> Iterator for PackageSourceNames<'a> {
    type Item = &'a str;

    ghost next_gives = { YieldsFirstBy (λ name. name.now) (λ names. names) };

    ghost remaining = { item_count (λ names. names) };

    fn next(&mut self) -> Option<&'a str> {
        let name = self.names.next()?;
        Some(name.as_str())
    }
}
