//! What is known of a graph beside it: an addition or a merge that is given it costs what it adds.
ghost use Rattle.std.specs.Prelude.{◌≡◌, [], IfOk};
ghost use Rattle.wit_elaboration.specs.Valid.{IsValid};
ghost use Rattle.wit_link.specs.Caches.{AreCachesOf, HaveGrown};
ghost use Rattle.wit_link.specs.steps.CachesMarks.{caches_cut_at, caches_mark_of};
ghost use Rattle.wit_link.specs.declared.caches.GraphCaches.{GraphCaches};

use std::alloc::{AllocError, Global};
use wit_data::{Table, TryClone, TypeId};
use wit_elaboration::Elaborator;
use wit_graph_data::Graph;

/// Which interfaces of a graph use which, and which of its types were met along aliases, each with whether it leads to a
/// resource. Both grow with the graph at their ends.
pub struct GraphCaches {
    pub elaborator: Elaborator,
    pub met: Table<TypeId, bool>,
}

impl GraphCaches {
    /// Those of an empty graph. It takes no memory.
    pub fn empty(alloc: Global) -> GraphCaches
        ensures elaborator { result.elaborator ≡ [] }
        ensures met { result.met ≡ [] }
    {
        GraphCaches {
            elaborator: Elaborator::empty(alloc),
            met: Table::new(alloc),
        }
    }

    /// Those of a graph, of which no type was met. It goes over all types of the graph.
    pub fn of(alloc: Global, graph: &Graph) -> Result<GraphCaches, AllocError>
        requires { IsValid graph.now }
        ensures { IfOk result (AreCachesOf graph.now) }
    {
        let types = graph.types.as_slice();
        let elaborator = Elaborator::new(alloc, types, graph.interfaces.as_slice())?;
        Ok(GraphCaches {
            elaborator,
            met: Table::new(alloc),
        })
    }
}

impl TryClone for GraphCaches {
    fn try_clone(&self) -> Result<GraphCaches, AllocError> {
        Ok(GraphCaches {
            elaborator: self.elaborator.try_clone()?,
            met: self.met.try_clone()?,
        })
    }
}

/// As the derived one.
impl Drop for GraphCaches {
    fn drop(self) {
        let GraphCaches { elaborator, met } = self;
        drop(elaborator);
        drop(met);
    }
}

/// How much caches hold, to cut them back to that.
#[derive(Clone, Copy, Debug)]
pub struct CachesMark {
    interfaces: usize,
    met: usize,
}

impl CachesMark {
    /// How much is there. It takes no memory.
    pub fn of(caches: &GraphCaches) -> CachesMark
        ensures { result ≡ caches_mark_of caches.now }
    {
        CachesMark {
            interfaces: caches.elaborator.interfaces(),
            met: caches.met.len(),
        }
    }

    /// Cuts caches to so much. It takes no memory. Those that grew from the ones that were marked are then as these
    /// were.
    pub fn cut(self, caches: &mut GraphCaches)
        ensures cut { caches.new ≡ caches_cut_at self caches.old }
        ensures back { (old : GraphCaches) → self ≡ caches_mark_of old → HaveGrown old caches.old
            → caches.new ≡ old }
    {
        caches.elaborator.cut(self.interfaces);
        caches.met.truncate(self.met);
    }
}
