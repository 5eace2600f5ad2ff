//! Laws of canonical worlds, of valid graphs, of id texts and of the order of packages: functions that compute nothing,
//! whose contracts are the laws.
pub use wit_elaboration::laws::{
    conflicts_are_refused, elaborated_entries, elaborated_once, elaborates_once,
    elaboration_is_local, export_keys_stay, imports_are_exact, imports_are_least,
    imports_keep_order, labels_stay, listed_stays, order_is_free,
};
pub use wit_graph_theory::laws::{
    covered_graphs_are_valid, id_texts_differ, packages_stay_acyclic,
};
pub use wit_queries::laws::packages_are_in_order;
