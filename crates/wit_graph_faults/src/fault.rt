//! Why a graph isn't valid.
ghost use Rattle.std.specs.Prelude.{Some};
ghost use Rattle.wit_graph_faults.specs.FaultText.{graph_fault_text};

use crate::clause::GraphClause;
use crate::place::GraphPlace;
use std::fmt;

/// The first clause of validity that a graph breaks, and the first thing that breaks it.
#[derive(Clone, Copy, Debug, PartialEq, Eq)]
pub struct GraphFault {
    pub clause: GraphClause,
    pub place: GraphPlace,
}

/// As `package 3 isn't listed under its name`.
impl fmt::Display for GraphFault {
    ghost output = { λ f. Some (graph_fault_text f) };

    fn fmt<W: fmt::Write>(&self, f: &mut fmt::Formatter<W>) -> fmt::Result {
        let place = self.place;
        let clause = self.clause;
        write!(f, "{place} {clause}")
    }
}
