//! Laws of post-orders, on which the orders of interfaces and packages rest: functions that compute nothing, whose
//! contracts are the laws.
pub use wit_digraph::laws::{
    firsts_are_once, post_orders_keep_order, post_orders_reach, post_orders_unfold,
};
