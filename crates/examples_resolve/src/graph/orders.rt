//! What depends on what, and in which order.
ghost use Rattle.examples_resolve.specs.graph.Dependencies.{ExamplesOfDependencies, ExamplesOfPackageOrder};

/// Interfaces that use one another, directly and not.
pub fn examples_of_dependencies()
    ensures { ExamplesOfDependencies }
{}

/// Packages in the order of what they depend on.
pub fn examples_of_package_order()
    ensures { ExamplesOfPackageOrder }
{}
