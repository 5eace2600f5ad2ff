//! The lengths of a graph's lists, to which it is cut back.
ghost use Rattle.std.specs.Prelude.{◌≡◌};
ghost use Rattle.wit_remap.specs.Grown.{Grown};
ghost use Rattle.wit_remap.specs.steps.Grown.{cut_at, mark_of};
ghost use Rattle.wit_graph_data.specs.declared.graph.Graph.{Graph};

use wit_graph_data::Graph;

/// How long the lists of a graph are, to cut it back to that.
#[derive(Clone, Copy, Debug)]
pub struct Mark {
    types: usize,
    interfaces: usize,
    worlds: usize,
    packages: usize,
    package_names: usize,
}

impl Mark {
    /// The lengths of a graph's lists. It takes no memory.
    pub fn of(graph: &Graph) -> Mark
        ensures { result ≡ mark_of graph.now }
    {
        Mark {
            types: graph.types.len(),
            interfaces: graph.interfaces.len(),
            worlds: graph.worlds.len(),
            packages: graph.packages.len(),
            package_names: graph.package_names.len(),
        }
    }

    /// Cuts the lists of a graph to these lengths; a list that is shorter stays. It takes no memory. A graph that
    /// grew at its ends from the one that was marked is then as that was.
    pub fn cut(self, graph: &mut Graph)
        ensures cut { graph.new ≡ cut_at self graph.old }
        ensures back { (old : Graph) → self ≡ mark_of old → Grown old graph.old → graph.new ≡ old }
    {
        graph.types.truncate(self.types);
        graph.interfaces.truncate(self.interfaces);
        graph.worlds.truncate(self.worlds);
        graph.packages.truncate(self.packages);
        graph.package_names.truncate(self.package_names);
    }
}
