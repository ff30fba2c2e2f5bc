// The calls that change how many pages a group holds. Each makes all its checks first, walks up one chain, and leaves the very
// same words where it refuses.
// The tree is the caller's array, as C lends it: that it is one (`Kept`) stands in the clauses, and not in a type.
#![tactic(auto)]

pub mod charge; // pages for a process's group, where every group above has room
pub mod release; // pages given back by a group
mod pages; // the pages that are named, and own pages
