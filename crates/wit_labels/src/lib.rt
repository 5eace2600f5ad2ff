//! Labels of worlds: the groups in brackets with which they begin, how an `include` renames them, which
//! are not strongly unique, and where setters stand.
#![tactic(auto)]

pub mod groups;
pub mod laws;
mod placing;
mod renaming;
mod setters;
mod strong;

pub use crate::groups::{has_group, rest_of, split_group};
pub use crate::placing::place_setters;
pub use crate::renaming::{Renamings, rename};
pub use crate::setters::{find_setter_without_getter, getter_label, is_setter_label};
pub use crate::strong::{Clash, find_clash, strong_key};
