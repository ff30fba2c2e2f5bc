// The files that a group's settings and its control set are written through: cgroup.subtree_control, and the settings.
// The tree is the caller's array, as C lends it: that it is one (`Kept`) stands in the clauses, and not in a type.
#![tactic(auto)]

mod flags; // what a control line does to each controller of a group's set
mod held; // a controller that leaves, in a child's set
mod reset; // settings of controllers that leave, back at their defaults
pub mod subtree; // cgroup.subtree_control
pub mod setting; // cpu.weight, cpu.max, io.max, memory.max, pids.max
