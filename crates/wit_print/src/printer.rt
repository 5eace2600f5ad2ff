//! What writes the text of a graph.
ghost use Rattle.std.specs.Prelude.{◌≡◌, ◌++◌, IfOk, codes, string_bytes};

use crate::methods::Methods;
use std::alloc::{AllocError, Global};
use wit_data::{PackageId, TypeDef};
use wit_graph_data::Graph;

/// What writes text of a graph, with what holds for all things in one pair of braces.
#[derive(Clone, Copy)]
pub struct Printer<'a> {
    pub alloc: Global,
    pub graph: &'a Graph,
    /// The package whose interfaces need no path.
    pub home: Option<PackageId>,
    /// What stands before each line.
    pub indent: &'a str,
    /// What stands in the braces of resources.
    pub methods: &'a Methods,
}

impl<'a> Printer<'a> {
    /// A printer of what stands in one pair of braces.
    pub fn new(
        alloc: Global,
        graph: &'a Graph,
        home: Option<PackageId>,
        indent: &'a str,
        methods: &'a Methods,
    ) -> Printer<'a>
        ensures graph { result.graph.now ≡ graph.now }
        ensures home { result.home ≡ home }
        ensures indent { result.indent.now ≡ indent.now }
        ensures methods { result.methods.now ≡ methods.now }
    {
        Printer {
            alloc,
            graph,
            home,
            indent,
            methods,
        }
    }

    /// The types of the graph.
    pub fn types(&self) -> &[TypeDef]
        ensures { result.now ≡ self.now.graph.now.types }
    {
        self.graph.types.as_slice()
    }

    /// What stands before lines two spaces further in.
    pub fn further_in(&self) -> Result<String, AllocError>
        ensures { IfOk result (λ text. string_bytes text ≡ self.now.indent.now ++ codes "  ") }
    {
        let indent = self.indent;
        format!(in self.alloc; "{indent}  ")
    }

    /// What stands before lines four spaces further in.
    pub fn much_further_in(&self) -> Result<String, AllocError>
        ensures { IfOk result
            (λ text. string_bytes text ≡ (self.now.indent.now ++ codes "  ") ++ codes "  ") }
    {
        let indent = self.indent;
        format!(in self.alloc; "{indent}    ")
    }
}
