//! The names of core wasm ABIs.

/// How a function is lifted or lowered.
///
/// Source: `LiftLowerAbi` of wit-parser 0.263.0.
#[derive(Clone, Copy, Debug, PartialEq, Eq)]
pub enum LiftLowerAbi {
    /// A call returns when its work is done.
    Sync,
    /// A call may go on, and a callback is called for what comes.
    AsyncCallback,
    /// A call may go on, on a stack of its own.
    AsyncStackful,
}

/// Which names core wasm imports and exports have, and which ABI goes with them.
///
/// Source: `ManglingAndAbi` of wit-parser 0.263.0.
#[derive(Clone, Copy, Debug, PartialEq, Eq)]
pub enum ManglingAndAbi {
    /// The names of the component model's build targets for 32-bit memory, `cm32p2`.
    Standard32,
    /// The names before those.
    Legacy(LiftLowerAbi),
}
