// What a reader sees: the files of a group, and the membership line of a process.
// A text is made in a scratch array and goes to the caller's buffer once, whole or not at all. Nothing here changes a tree.
// The tree is the caller's array, as C lends it: that it is one (`Kept`) stands in the clauses, and not in a type.
#![tactic(auto)]

pub mod path; // the path of a group, and the membership line
pub mod list; // names of controllers, and processes
pub mod value; // counts and settings
pub mod device; // io.max
pub mod reader; // the two calls
