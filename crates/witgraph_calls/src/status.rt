//! What a status tells. `include/witgraph.h` has the same numbers.

/// The call did what it says: a script or a document was understood and run, refusals included.
pub const UNDERSTOOD: u32 = 0;

/// The script or the document wasn't understood: the output tells where.
pub const NOT_UNDERSTOOD: u32 = 1;

/// The output is shorter than what goes there, and is as before; what is needed is known.
pub const OUTPUT_TOO_SMALL: u32 = 2;

/// The input isn't UTF-8; the output is as before.
pub const INPUT_NOT_UTF8: u32 = 3;

/// Memory was wanted outside a command; the output is as before, and so is a graph that stays.
pub const NO_MEMORY: u32 = 4;

/// No graph is open there.
pub const NO_GRAPH: u32 = 5;

/// Memory was wanted while commands were carried out on a graph that stays, or while their replies were written: some are
/// carried out, and there are no replies.
pub const CUT_SHORT: u32 = 6;
