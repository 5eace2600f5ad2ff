//! What a package lacks of its shape.
ghost use Rattle.std.specs.Prelude.{Some};
ghost use Rattle.wit_shape.specs.FaultText.{fault_text};

use crate::clause::ShapeClause;
use crate::place::ShapePlace;
use std::fmt;

/// The first clause of the shape that a package breaks, and the first thing that breaks it.
#[derive(Clone, Copy, Debug, PartialEq, Eq)]
pub struct ShapeFault {
    pub clause: ShapeClause,
    pub place: ShapePlace,
}

/// As `interfaces[1].functions[0] breaks owners.functions: a function stands under its name`.
impl fmt::Display for ShapeFault {
    ghost output = { λ f. Some (fault_text f) };

    fn fmt<W: fmt::Write>(&self, f: &mut fmt::Formatter<W>) -> fmt::Result {
        let place = self.place;
        let name = self.clause.name();
        let clause = self.clause;
        write!(f, "{place} breaks {name}: {clause}")
    }
}
