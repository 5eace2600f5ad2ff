//! Packages that are added together.
ghost use Rattle.examples_resolve.specs.graph.Orders.{ExamplesOfGroups, ExamplesOfOrders};

/// Packages that depend on each other, names that come twice, and cycles.
pub fn examples_of_groups()
    ensures { ExamplesOfGroups }
{}

/// Orders of packages that are added together, and what isn't one.
pub fn examples_of_orders()
    ensures { ExamplesOfOrders }
{}
