//! The laws, each under the crate of its layer. A law computes nothing, so a call shows that users can name it.
use wit_graph::laws as of_graphs;
use wit_items::laws as of_items;
use wit_link::laws as of_links;
use wit_resolve_graph::{Resolve, laws as of_runs};
use wit_script::laws as of_scripts;
use wit_unite::laws as of_merges;

#[test]
fn laws_of_post_orders_can_be_named(_rt: HostRuntime) {
    of_items::firsts_are_once();
    of_items::post_orders_keep_order();
    of_items::post_orders_reach();
    of_items::post_orders_unfold();
}

#[test]
fn laws_of_graphs_can_be_named(_rt: HostRuntime) {
    of_graphs::conflicts_are_refused();
    of_graphs::covered_graphs_are_valid();
    of_graphs::elaborated_entries();
    of_graphs::elaborated_once();
    of_graphs::elaborates_once();
    of_graphs::elaboration_is_local();
    of_graphs::export_keys_stay();
    of_graphs::id_texts_differ();
    of_graphs::imports_are_exact();
    of_graphs::imports_are_least();
    of_graphs::imports_keep_order();
    of_graphs::labels_stay();
    of_graphs::listed_stays();
    of_graphs::order_is_free();
    of_graphs::packages_are_in_order();
    of_graphs::packages_stay_acyclic();
}

#[test]
fn laws_of_adding_can_be_named(_rt: HostRuntime) {
    of_links::copies_are_exact();
    of_links::included_are_there();
    of_links::includes_can_be();
    of_links::includes_stand();
    of_links::pushes_stay_valid();
    of_links::worlds_can_be();
}

#[test]
fn laws_of_merging_can_be_named(_rt: HostRuntime) {
    of_merges::accepted_copies_change_nothing();
    of_merges::agreement_is_symmetric();
    of_merges::copies_are_refused_for();
    of_merges::copies_go_to_themselves();
    of_merges::either_order_elaborates();
    of_merges::empty_becomes_alike();
    of_merges::empty_keeps_ids();
    of_merges::examples_of_structure();
    of_merges::merges_are_alike();
    of_merges::merges_make_no_borrow();
    of_merges::merging_is_order_free();
    of_merges::nothing_comes();
    of_merges::nothing_new_is_cyclic();
    of_merges::old_worlds_stay();
    of_merges::resources_stay();
    of_merges::shared_worlds_keep_imports();
    of_merges::merges_grow();
    of_merges::merges_have_both_names();
    of_merges::merges_stay_valid();
}

#[test]
fn laws_of_changed_worlds_can_be_named(_rt: HostRuntime) {
    of_merges::aliases_keep_names();
    of_merges::aliases_name_newest();
    of_merges::exports_are_kept();
    of_merges::exportized_imports_nothing();
    of_merges::exportized_stay_valid();
    of_merges::importized_exports_nothing();
    of_merges::importized_stay_valid();
    of_merges::importized_then_exportized();
    of_merges::keys_are_exact();
    of_merges::labels_are_kept();
    of_merges::newest_is_greatest();
    of_merges::one_on_each_track();
    of_merges::semver_merges_keep();
    of_merges::semver_merges_stay_valid();
    of_merges::same_types_keep_worlds();
    of_merges::semver_merges_once();
    of_merges::worlds_are_elaborated();
}

#[test]
fn laws_of_runs_can_be_named(rt: HostRuntime) {
    of_runs::calls_keep();
    of_runs::calls_stay_in_order();
    of_runs::runs_keep();
    of_runs::runs_stay_in_order();
    of_runs::semver_is_exact(&Resolve::new(rt.alloc()));
    of_scripts::scripts_have_one_outcome();
}
