//! Laws of adding and of includes: functions that compute nothing, whose contracts are the laws.
pub use wit_link_spec::laws::{
    copies_are_exact, included_are_there, includes_can_be, includes_stand, pushes_stay_valid,
    worlds_can_be,
};
