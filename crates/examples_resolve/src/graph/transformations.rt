//! Which imports of a world stay where its exports become imports, and how far the reasons reach for which a turn is
//! refused.
ghost use Rattle.examples_resolve.specs.graph.KeptImports.{ExamplesOfDroppedImports, ExamplesOfKeptImports};
ghost use Rattle.examples_resolve.specs.graph.TransformCauses.{ExamplesOfConflictsBesideTypes, ExamplesOfNamesInUse};

/// Imports of types stay.
pub fn examples_of_kept_imports()
    ensures { ExamplesOfKeptImports }
{}

/// All other imports go.
pub fn examples_of_dropped_imports()
    ensures { ExamplesOfDroppedImports }
{}

/// The name of another world of the package is taken, and that of another package's world isn't.
pub fn examples_of_names_in_use()
    ensures { ExamplesOfNamesInUse }
{}

/// No conflict is told where a type would be exported.
pub fn examples_of_conflicts_beside_types()
    ensures { ExamplesOfConflictsBesideTypes }
{}
