// The calls that change which groups there are and who owns them. Each makes all its checks first, and leaves the very
// same words where it refuses. No call changes what is charged to the machine.
// The tree is the caller's array, as C lends it: that it is one (`Kept`) stands in the clauses, and not in a type.
#![tactic(auto)]

pub mod make; // a group made under a live one
pub mod remove; // a group without children and processes removed
pub mod hand_over; // a group given another owner
mod live; // the checks that calls on one group begin with
