// What C links: each call of `shootspiral` under its own name, with the same clauses. include/shootspiral.h declares them.
#![tactic(auto)]

mod tree_calls; // groups, processes, pages
mod line_calls; // lines written to files
mod reply_calls; // texts read into a buffer
