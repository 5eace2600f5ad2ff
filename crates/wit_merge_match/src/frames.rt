//! Types on the way of a comparison.

/// Two types of which the parts are compared, and the index of the next part.
#[derive(Clone, Copy)]
pub(crate) struct Frame {
    pub(crate) from: usize,
    pub(crate) into: usize,
    pub(crate) next: usize,
}
