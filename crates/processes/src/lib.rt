// The calls that change where processes stand or ended. Each makes all its checks first, walks up at most two chains, and leaves the very
// same words where it refuses. No call moves pages.
// The tree is the caller's array, as C lends it: that it is one (`Kept`) stands in the clauses, and not in a type.
#![tactic(auto)]

pub mod birth; // a process admitted to the root, or forked beside its parent
pub mod exit; // a process that ends, and is a zombie
pub mod collect; // a zombie that is collected
pub mod migration; // a write to cgroup.procs
mod vet; // the checks of one process
mod place; // a process's place and the running sums above it together
