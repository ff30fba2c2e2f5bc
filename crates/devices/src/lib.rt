// The table of io.max as a value: four slots, packed and ascending, which one pass over them changes. What it stands for is stated by
// `table_of` in specs/. Where a tree keeps the slots is the business of `tree`, which keeps its other limits as such words too.
#![tactic(auto)]

pub mod limit; // a limit as a word of a tree
pub mod slot; // a device and its limits
pub mod table; // four slots, and a line written to them
