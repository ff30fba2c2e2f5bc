// An evening: a tree, fresh when it begins, and the calls on it, each printed with its reply on one line.
mod reads;
mod room;
mod writes;

use room::Room;
use shootspiral::tree_calls::{
    ss_admit, ss_charge, ss_collect, ss_exit, ss_fork, ss_hand_over, ss_make, ss_release, ss_remove,
};
use std::io;
use std::marker::Model;
use std::rt::Stdout;
use tree::fresh::fresh;
use tree::layout::Tree;

#[derive(Drop)]
pub(crate) struct Evening {
    out: Stdout,
    tree: Tree,
}

// The words are those of a tree before each call and after it, whether its line could be printed or not.
impl Model for Evening {
    ghost use Rattle.std.specs.Prelude.{ℕ, List};
    ghost use Rattle.tree.specs.Kept.{Kept};

    ghost Value = { List ℕ };

    ghost view = { λ e. e.tree };

    ghost invariant = { λ e. Kept e.tree };
}

impl Evening {
    // Before the first evening: a machine with no pages.
    pub(crate) fn new(out: Stdout) -> Evening {
        Evening {
            out,
            tree: fresh(0),
        }
    }

    pub(crate) fn title(&self, title: &str) -> io::Result<()> {
        println!(self.out; "\n{title}")
    }

    pub(crate) fn begin(&mut self, title: &str, pages: u64) -> io::Result<()> {
        self.tree = fresh(pages);
        println!(self.out; "\n{title}\nfresh tree, machine {pages} pages")
    }

    // The name of a case that is marked P.
    pub(crate) fn case(&self, number: u32) -> io::Result<()> {
        println!(self.out; "P{number}")
    }

    pub(crate) fn make(&mut self, user: u32, parent: u64, group: u64) -> io::Result<()> {
        let answer = ss_make(&mut self.tree, user, parent, group);
        println!(self.out; "make user {user}, parent {parent}, group {group}: {answer}")
    }

    // Groups 1 to `depth`, each below the one before it.
    pub(crate) fn make_chain(&mut self, depth: u64) -> io::Result<()> {
        for parent in 0..depth {
            self.make(0, parent, parent + 1)?;
        }
        Ok(())
    }

    pub(crate) fn remove(&mut self, user: u32, group: u64) -> io::Result<()> {
        let answer = ss_remove(&mut self.tree, user, group);
        println!(self.out; "remove user {user}, group {group}: {answer}")
    }

    pub(crate) fn hand_over(&mut self, user: u32, group: u64, owner: u32) -> io::Result<()> {
        let answer = ss_hand_over(&mut self.tree, user, group, owner);
        println!(self.out; "hand over user {user}, group {group}, owner {owner}: {answer}")
    }

    pub(crate) fn admit(&mut self, process: u64, user: u32) -> io::Result<()> {
        let answer = ss_admit(&mut self.tree, process, user);
        println!(self.out; "admit process {process}, user {user}: {answer}")
    }

    // A process of user 0, which user 0 moves to a group.
    pub(crate) fn admit_to(&mut self, group: u64, process: u64) -> io::Result<()> {
        self.admit(process, 0)?;
        self.write_procs(0, group, process)
    }

    pub(crate) fn fork(&mut self, parent: u64, process: u64) -> io::Result<()> {
        let mut told = [0; 2];
        let number = ss_fork(&mut self.tree, parent, process, &mut told);
        let room = Room::new(number, told);
        println!(self.out; "fork parent {parent}, process {process}: {room}")
    }

    pub(crate) fn exit(&mut self, process: u64) -> io::Result<()> {
        let answer = ss_exit(&mut self.tree, process);
        println!(self.out; "exit process {process}: {answer}")
    }

    pub(crate) fn collect(&mut self, process: u64) -> io::Result<()> {
        let answer = ss_collect(&mut self.tree, process);
        println!(self.out; "collect process {process}: {answer}")
    }

    pub(crate) fn charge(&mut self, process: u64, pages: u64) -> io::Result<()> {
        let mut told = [0; 2];
        let number = ss_charge(&mut self.tree, process, pages, &mut told);
        let room = Room::new(number, told);
        println!(self.out; "charge process {process}, pages {pages}: {room}")
    }

    pub(crate) fn release(&mut self, group: u64, pages: u64) -> io::Result<()> {
        let answer = ss_release(&mut self.tree, group, pages);
        println!(self.out; "release group {group}, pages {pages}: {answer}")
    }
}
