//! The keys of tables, which differ since they are keys of tables: facts for proofs, which do nothing.
ghost use Rattle.wit_data.specs.Each.{Each};
ghost use Rattle.wit_graph_data.specs.declared.graph.Package.{Package};
ghost use Rattle.wit_graph_faults.specs.steps.Keys.{KeysDiffer};
ghost use Rattle.wit_values.specs.Table.{HasDistinctKeys};

use wit_graph_data::{Graph, Package};
use wit_shape::keys::{interfaces_keys_differ, worlds_keys_differ};

/// The keys of each table of a graph differ.
pub(crate) fn keys_differ(graph: &Graph)
    ensures { KeysDiffer graph.now }
{
    graph.package_names.keys_differ();
    packages_keys_differ(graph.packages.as_slice());
    interfaces_keys_differ(graph.interfaces.as_slice());
    worlds_keys_differ(graph.worlds.as_slice());
}

/// The names in the tables of packages differ.
fn packages_keys_differ(packages: &[Package])
    ensures interfaces { Each (λ (home : Package). HasDistinctKeys home.interfaces) packages.now }
    ensures worlds { Each (λ (home : Package). HasDistinctKeys home.worlds) packages.now }
{
    packages
        .iter()
        .for_each(|home| home.interfaces.keys_differ());
    packages.iter().for_each(|home| home.worlds.keys_differ());
}
