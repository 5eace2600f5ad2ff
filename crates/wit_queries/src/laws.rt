//! A law of what is asked of a graph: the contract of the function is what is proved.
ghost use Rattle.wit_queries.specs.laws.PackageOrder.{PackagesAreInOrder};

use wit_digraph::laws::{firsts_are_once, post_orders_keep_order, post_orders_reach};

/// `topological_packages` lists every package once, each after those that it depends on.
pub fn packages_are_in_order()
    ensures { PackagesAreInOrder }
{
    post_orders_reach();
    post_orders_keep_order();
    firsts_are_once();
}
