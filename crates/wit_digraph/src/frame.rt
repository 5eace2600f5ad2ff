//! A node on the way of a search along uses.

/// A node on the way, and the index of its next use.
#[derive(Clone, Copy)]
pub(crate) struct Frame {
    pub(crate) node: usize,
    pub(crate) next: usize,
}
