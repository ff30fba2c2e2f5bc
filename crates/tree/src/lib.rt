// The tree in words, lent to every call and changed in place. `row` says where a word is, and `group`, `setting`, `device`,
// `sum` and `process` read and store; `chain` and `counter` walk up the hierarchy. What the calls promise of the tree is stated by `view` in
// specs/, and `Kept` is the invariant.
#![tactic(auto)]

pub mod layout; // the sizes, and the type of a tree
mod row; // the places in a row, and the read and the store of a word
pub mod group; // what is kept of a group
pub mod setting; // its settings, their controllers and defaults
pub mod device; // the slots of io.max
pub mod sum; // its running sums
pub mod removed; // what is left of a removed group
pub mod process; // what is kept of a process
pub mod fresh; // a fresh tree
pub mod chain; // chains, by value, and the common ancestor
pub mod counter; // counts, running sums, and room along a chain
pub mod rule; // the tests that checks are made of
