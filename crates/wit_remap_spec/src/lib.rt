//! What a remap makes of data: its image under maps of ids, what of it is kept, the maps of an include, where values become
//! an `own`, which stability an interface has that a world has already, where functions of one name disagree, and which
//! results hold a borrow. Graphs to which something is added, merged and semver merged graphs are built from these.
//! Definitions alone; `wit_remap` and the crates above have the code that meets them.
#![tactic(auto)]
