// The C interface: one function per call, over numbers, byte slices and a tree that the caller owns. It has no rules of its own.
// Each answers document 01's number, 0 for success. `shootspiral_c` exports them, and include/shootspiral.h declares them.
// The tree is the caller's array, as C lends it: that it is one (`Kept`) stands in the clauses, and not in a type.
#![tactic(auto)]

pub mod number; // answers as numbers
pub mod tree_calls; // groups, processes, pages
pub mod line_calls; // lines written to files
pub mod reply_calls; // texts read into a buffer
