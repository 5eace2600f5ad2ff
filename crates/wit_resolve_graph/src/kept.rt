//! What a `Resolve` keeps beside its graph.
ghost use Rattle.std.specs.Prelude.{◌≡◌, ◌⊎◌, ◌≤◌, [], IfErr, IfOk, OnErr, OnOk, length};
ghost use Rattle.wit_elaboration.specs.Valid.{IsValid};
ghost use Rattle.wit_graph_data.specs.declared.error_kind.ResolveErrorKind.{ResolveErrorKind};
ghost use Rattle.wit_graph_data.specs.declared.error_kind.ResolveErrorKind.TheVariants.{OutOfMemory};
ghost use Rattle.wit_data.specs.Shape.{IsShaped};
ghost use Rattle.wit_link_spec.specs.Cause.{IsAdditionCause};
ghost use Rattle.wit_link.specs.Appending.{IsAdded, addition};
ghost use Rattle.wit_link.specs.steps.CachesMarks.{caches_cut_at};
ghost use Rattle.wit_remap.specs.steps.Grown.{cut_at};
ghost use Rattle.wit_queries.specs.ValidBits.{AreValidBits, AreValidBitsOf};
ghost use Rattle.wit_resolve_graph.specs.State.{AreKept};

use std::alloc::{AllocError, Global};
use wit_data::{Items, PackageId, TryClone, UnresolvedPackage};
use wit_graph_data::{Features, Graph, ResolveResult};
use wit_link::{CachesMark, GraphCaches, append_with};
use wit_queries::valid_bits::add_valid_bits;
use wit_remap::Mark;

/// Caches of a graph, and of which of its types all bits are valid: so a push costs what it adds, and what is asked of a
/// type's bits no memory.
pub(crate) struct Kept {
    pub(crate) caches: GraphCaches,
    pub(crate) valid_bits: Items<bool>,
}

impl Kept {
    /// What is kept beside an empty graph. It takes no memory.
    pub(crate) fn empty(alloc: Global) -> Kept
        ensures uses { result.caches.elaborator ≡ [] }
        ensures met { result.caches.met ≡ [] }
        ensures bits { result.valid_bits ≡ [] }
    {
        Kept {
            caches: GraphCaches::empty(alloc),
            valid_bits: Items::new(alloc),
        }
    }

    /// What is kept beside a graph. It goes over all types of the graph.
    pub(crate) fn of(alloc: Global, graph: &Graph) -> Result<Kept, AllocError>
        requires { IsValid graph.now }
        ensures { IfOk result (AreKept graph.now) }
    {
        let caches = GraphCaches::of(alloc, graph)?;
        let mut valid_bits = Items::new(alloc);
        add_valid_bits(alloc, &mut valid_bits, graph.types.as_slice())?;
        Ok(Kept { caches, valid_bits })
    }

    /// Adds the flags of the types that came behind those that have one. Where there is no memory, the graph and its
    /// caches are cut back to what was marked.
    pub(crate) fn follow(
        &mut self,
        alloc: Global,
        graph: &mut Graph,
        mark: Mark,
        known: CachesMark,
    ) -> Result<(), AllocError>
        requires first { length self.old.valid_bits ≤ length graph.old.types }
        requires known { AreValidBits graph.old.types self.old.valid_bits }
        ensures ok { OnOk result ((graph.new ≡ graph.old)
            × ((self.new.caches ≡ self.old.caches)
            × AreValidBitsOf graph.new.types self.new.valid_bits)) }
        ensures unchanged { OnErr result ((graph.new ≡ cut_at mark graph.old)
            × ((self.new.caches ≡ caches_cut_at known self.old.caches)
            × (self.new.valid_bits ≡ self.old.valid_bits))) }
    {
        let added = add_valid_bits(alloc, &mut self.valid_bits, graph.types.as_slice());
        if added.is_err() {
            mark.cut(graph);
            known.cut(&mut self.caches);
        }
        added
    }
}

impl TryClone for Kept {
    fn try_clone(&self) -> Result<Kept, AllocError> {
        let caches = self.caches.try_clone()?;
        let valid_bits = self
            .valid_bits
            .as_slice()
            .to_vec(self.valid_bits.allocator())?;
        Ok(Kept {
            caches,
            valid_bits: Items::from_vec(valid_bits),
        })
    }
}

/// As the derived one.
impl Drop for Kept {
    fn drop(self) {
        let Kept { caches, valid_bits } = self;
        drop(caches);
        drop(valid_bits);
    }
}

/// Adds a package to a graph and to what is kept beside it: see `wit_link::append_with`.
pub(crate) fn append_kept(
    alloc: Global,
    graph: &mut Graph,
    kept: &mut Kept,
    features: &Features,
    package: UnresolvedPackage,
    span_offset: u32,
) -> ResolveResult<PackageId>
    requires shaped { IsShaped «package» }
    requires kept { AreKept graph.old kept.old }
    ensures ok { IfOk result
        (λ id. IsAdded (addition features.now graph.old «package» span_offset) graph.new id) }
    ensures kept { AreKept graph.new kept.new }
    ensures unchanged { OnErr result (graph.new ≡ graph.old) }
    ensures cause { IfErr result (λ kind.
        (kind ≡ OutOfMemory)
        ⊎ IsAdditionCause (addition features.now graph.old «package» span_offset) kind) }
    ensures refuses { (kind : ResolveErrorKind)
        → IsAdditionCause (addition features.now graph.old «package» span_offset) kind
        → OnOk result ⊥ }
{
    let mark = Mark::of(graph);
    let known = CachesMark::of(&kept.caches);
    let id = append_with(
        alloc,
        graph,
        &mut kept.caches,
        features,
        package,
        span_offset,
    )?;
    kept.follow(alloc, graph, mark, known)?;
    Ok(id)
}
