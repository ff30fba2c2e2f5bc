// What names and lines say: controllers, settings and files; control lines; values of settings, their ranges and their figures.
// Every reader takes any bytes of any length. Nothing here knows a tree.
#![tactic(auto)]

pub mod name; // the names of controllers, settings and files
pub mod control; // control lines
pub mod pair; // the pairs of io.max
pub mod value; // what a line gives a setting
pub mod range; // the ranges of values
pub mod amount; // figures of files, amounts of resources, devices
