//! Marks of interfaces, for the elaboration of one world after another.
ghost use Rattle.std.specs.Prelude.{◌≡◌, ℕ, ◌+◌, [], IfOk, OnOk};
ghost use Rattle.wit_elaboration.specs.steps.Elaborating.{HaveAtLeast, HaveNodes};

use std::alloc::{AllocError, Global};
use wit_digraph::Listing;

/// Which interfaces of a graph are marked for what. Each set is taken off at a step for each of its
/// members, so that a world costs what it reaches, and not a step for each interface of the graph.
pub(crate) struct Marks {
    /// What was walked, each after its uses.
    pub(crate) walked: Listing,
    /// The exported keys.
    pub(crate) exported: Listing,
    /// What reaches an exported key.
    pub(crate) reaching: Listing,
    /// What reaches an exported key and is none.
    pub(crate) outside: Listing,
    /// What reaches one of these.
    pub(crate) leading: Listing,
}

/// As the derived one: each field is let go. A call of it costs the check less than a derived one,
/// which is checked again wherever a value is let go.
impl Drop for Marks {
    fn drop(self) {
        let Marks {
            walked,
            exported,
            reaching,
            outside,
            leading,
        } = self;
        drop(walked);
        drop(exported);
        drop(reaching);
        drop(outside);
        drop(leading);
    }
}

impl Marks {
    /// No marks, for no interfaces. It takes no memory.
    pub(crate) fn empty(alloc: Global) -> Marks
        ensures { HaveNodes result 0 }
    {
        Marks {
            walked: Listing::empty(alloc),
            exported: Listing::empty(alloc),
            reaching: Listing::empty(alloc),
            outside: Listing::empty(alloc),
            leading: Listing::empty(alloc),
        }
    }

    /// No marks, for so many interfaces.
    pub(crate) fn new(alloc: Global, interfaces: usize) -> Result<Marks, AllocError>
        ensures nodes { IfOk result (λ marks. HaveNodes marks interfaces) }
        ensures none { IfOk result (λ marks.
            (marks.walked.order ≡ []) × (marks.exported.order ≡ [])
            × (marks.reaching.order ≡ []) × (marks.outside.order ≡ [])
            × (marks.leading.order ≡ [])) }
    {
        let mut marks = Marks::empty(alloc);
        marks.walked = Listing::new(alloc, interfaces)?;
        marks.exported = Listing::new(alloc, interfaces)?;
        marks.reaching = Listing::new(alloc, interfaces)?;
        marks.outside = Listing::new(alloc, interfaces)?;
        marks.leading = Listing::new(alloc, interfaces)?;
        Ok(marks)
    }

    /// One interface more, which isn't marked for anything. Where there is no memory, it may be there for some marks.
    pub(crate) fn add_node(&mut self) -> Result<(), AllocError>
        ensures ok { OnOk result ((n : ℕ) → HaveNodes self.old n → HaveNodes self.new (n + 1)) }
        ensures least { (n : ℕ) → HaveNodes self.old n → HaveAtLeast self.new n }
    {
        self.walked.add_node()?;
        self.exported.add_node()?;
        self.reaching.add_node()?;
        self.outside.add_node()?;
        self.leading.add_node()
    }

    /// No marks, for the first so many interfaces alone. It takes no memory.
    pub(crate) fn cut(&mut self, interfaces: usize)
        requires { HaveAtLeast self.old interfaces }
        ensures { HaveNodes self.new interfaces }
    {
        self.walked.cut(interfaces);
        self.exported.cut(interfaces);
        self.reaching.cut(interfaces);
        self.outside.cut(interfaces);
        self.leading.cut(interfaces);
    }
}
