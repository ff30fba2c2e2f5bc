// The evenings that document 01 works through, what is right where it lists a slip, and those of orders: every call on a line, with
// its reply after the colon. Nothing is judged here; what is printed is held to `stdout`, which is to be read beside the paper.
#![tactic(auto)]

mod bytes; // bytes on a line of output
mod evening; // a tree, and the calls on it
mod charges; // P1 to P5, and the groups consulted
mod settings; // P6 to P8, and order 2
mod io_max; // io.max of order 1
mod hierarchy; // P9, P10, depths, and the last numbers of order 4
mod zombies; // order 5
mod texts; // P11, whole replies, and bad words
mod slips; // what is right where a slip looks right

use evening::Evening;
use std::io;

// The cases marked P.
fn marked(evening: &mut Evening) -> io::Result<()> {
    charges::p1_to_p5(evening)?;
    settings::p6_p7(evening)?;
    settings::p8(evening)?;
    hierarchy::p9(evening)?;
    hierarchy::p10(evening)?;
    texts::p11(evening)
}

// The cases that are not, and what charge, fork and the question about a line tell.
fn others(evening: &mut Evening) -> io::Result<()> {
    texts::whole_replies(evening)?;
    hierarchy::depths(evening)?;
    charges::consulted(evening)?;
    texts::first_bad_words(evening)
}

// The slips that look right, but for the common ancestor, which is P10.
fn right(evening: &mut Evening) -> io::Result<()> {
    slips::pids_limit_and_move(evening)?;
    slips::pages_stay(evening)?;
    slips::limit_of_the_owner(evening)?;
    slips::nothing_halfway(evening)
}

// The orders of document 02.
fn ordered(evening: &mut Evening) -> io::Result<()> {
    io_max::of_a_group(evening)?;
    settings::odd_bytes(evening)?;
    hierarchy::last_numbers(evening)?;
    zombies::until_collected(evening)
}

fn main(rt: HostRuntime) -> io::Result<()> {
    println!(rt;
        "A call, and after the colon its reply: 0 for success, else the number of the refusal."
    )?;
    let mut evening = Evening::new(rt.stdout());
    marked(&mut evening)?;
    others(&mut evening)?;
    right(&mut evening)?;
    ordered(&mut evening)
}
