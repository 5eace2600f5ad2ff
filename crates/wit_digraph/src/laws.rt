//! Laws of the definitions: each function has no body, and its contract is what is proved.
ghost use Rattle.std.specs.Prelude.{ℕ, List};
ghost use Rattle.wit_digraph.specs.examples.Examples.{ExamplesOfCycles, ExamplesOfPaths, ExamplesOfPostOrders};
ghost use Rattle.wit_digraph.specs.laws.Laws.{FirstsAreOnce, PostOrdersKeepOrder, PostOrdersReach, PostOrdersUnfold};

/// Where no node reaches itself, a post-order is the post-orders of the direct uses, in order, and then the
/// node.
pub fn post_orders_unfold()
    ensures { PostOrdersUnfold }
{}

/// Where no node reaches itself, the order of some roots lists exactly what they reach.
pub fn post_orders_reach()
    ensures { PostOrdersReach }
{}

/// Where no node reaches itself, each direct use stands before its user in the order of some roots.
pub fn post_orders_keep_order()
    ensures { PostOrdersKeepOrder }
{}

/// The first of each member has all members, each once.
pub fn firsts_are_once()
    ensures { (xs : List ℕ) → FirstsAreOnce xs }
{}

/// Small relations worked by hand: what is reached and what isn't, what is a cycle and what isn't,
/// what a walk lists and which order has a use after its user.
pub fn examples_hold()
    ensures paths { ExamplesOfPaths }
    ensures cycles { ExamplesOfCycles }
    ensures post_orders { ExamplesOfPostOrders }
{}
