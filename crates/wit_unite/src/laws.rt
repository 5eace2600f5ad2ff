//! Laws of merging, of transformed worlds and of semver merging: functions that compute nothing, whose contracts are the
//! laws.
pub use wit_merge_laws::laws::{
    accepted_copies_change_nothing, agreement_is_symmetric, copies_are_refused_for,
    copies_go_to_themselves, either_order_elaborates, empty_becomes_alike, empty_keeps_ids,
    merges_are_alike, merges_grow, merges_have_both_names, merges_make_no_borrow,
    merges_stay_valid, merging_is_order_free, nothing_comes, nothing_new_is_cyclic,
    old_worlds_stay, resources_stay, shared_worlds_keep_imports,
};
pub use wit_merge_spec::laws::examples_of_structure;
pub use wit_semver::laws::{
    aliases_keep_names, aliases_name_newest, exports_are_kept, keys_are_exact, labels_are_kept,
    newest_is_greatest, one_on_each_track, same_types_keep_worlds, semver_merges_keep,
    semver_merges_once, semver_merges_stay_valid, worlds_are_elaborated,
};
pub use wit_transform::laws::{
    exportized_imports_nothing, exportized_stay_valid, importized_exports_nothing,
    importized_stay_valid, importized_then_exportized,
};
