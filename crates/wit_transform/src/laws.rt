//! Laws of transformed worlds: the contract of each function is what is proved.
ghost use Rattle.wit_transform.specs.examples.TransformExamples.{ExamplesOfRefusedTransformations, ExamplesOfTransformations};
ghost use Rattle.wit_transform.specs.laws.TransformLaws.{ExportizedImportsNothing, ExportizedStayValid, ImportizedExportsNothing, ImportizedStayValid, ImportizedThenExportized};

use wit_graph_theory::laws::laws_of_elaboration;

/// A valid graph with a world whose exports became imports is valid, where no cause holds against it.
pub fn importized_stay_valid()
    ensures { ImportizedStayValid }
{
    laws_of_elaboration();
}

/// A valid graph with a world whose imports became exports is valid, where no cause holds against it.
pub fn exportized_stay_valid()
    ensures { ExportizedStayValid }
{
    laws_of_elaboration();
}

/// A world whose exports became its imports exports nothing.
pub fn importized_exports_nothing()
    ensures { ImportizedExportsNothing }
{}

/// A world of a valid graph of which all imports became exports imports nothing, where no cause holds
/// against it.
pub fn exportized_imports_nothing()
    ensures { ExportizedImportsNothing }
{
    laws_of_elaboration();
}

/// A world without types that is transformed and transformed back exports what it exported and, under its own key,
/// each interface that these need.
pub fn importized_then_exportized()
    ensures { ImportizedThenExportized }
{
    laws_of_elaboration();
}

/// Small graphs: what turns make of them, and what they don't.
pub fn examples_of_transformations()
    ensures { ExamplesOfTransformations }
{}

/// Small graphs: which turns are refused with which error, and which aren't.
pub fn examples_of_refused_transformations()
    ensures { ExamplesOfRefusedTransformations }
{}
