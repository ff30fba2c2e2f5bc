// Text as bytes: reading lines, words, numbers and limits, writing decimal text, and delivering a reply.
// Every reader takes any bytes of any length. Nothing here knows a tree.
#![tactic(auto)]

pub mod line; // lines and their words
pub mod number; // number words
pub mod limit; // limits as words of a line
pub mod cut; // a word in two parts
pub mod write; // decimal text, and its delivery
