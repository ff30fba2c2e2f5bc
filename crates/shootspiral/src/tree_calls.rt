// Groups, processes and pages.
ghost use Rattle.std.specs.Prelude.{◌≡◌};
ghost use Rattle.model.specs.Calls.{make, remove, hand_over, admit, fork, exit, collect, charge, release};
ghost use Rattle.model.specs.Replies.{reply};
ghost use Rattle.tree.specs.Layout.{view, tree_words};
ghost use Rattle.tree.specs.Kept.{Kept, Fresh};
ghost use Rattle.tree.specs.Calling.{Answered};
ghost use Rattle.shootspiral.specs.Interface.{room_words};

use super::number::{answer_number, room_count, room_group, room_number};
use accounting::charge::charge;
use accounting::release::release;
use groups::hand_over::hand_over;
use groups::make::make;
use groups::remove::remove;
use model::{GroupId, ProcessId, Resource};
use processes::birth::{admit, fork};
use processes::collect::collect;
use processes::exit::exit;
use tree::fresh::fresh;
use tree::layout::{Tree, WORDS};

// A fresh tree of so many pages, in memory of the caller's.
pub fn ss_fresh(tree: &mut Tree, machine_pages: u64)
    ensures { Fresh machine_pages tree.new }
{
    *tree = fresh(machine_pages);
}

// How many words a tree has.
pub fn ss_tree_words() -> u64
    ensures { result ≡ tree_words }
{
    WORDS as u64
}

pub fn ss_make(tree: &mut Tree, user: u32, parent: u64, group: u64) -> u32
    requires { Kept tree.old }
    ensures { Answered tree.old tree.new (make user parent group) result }
{
    answer_number(make(tree, user, GroupId(parent), GroupId(group)))
}

pub fn ss_remove(tree: &mut Tree, user: u32, group: u64) -> u32
    requires { Kept tree.old }
    ensures { Answered tree.old tree.new (remove user group) result }
{
    answer_number(remove(tree, user, GroupId(group)))
}

pub fn ss_hand_over(tree: &mut Tree, user: u32, group: u64, owner: u32) -> u32
    requires { Kept tree.old }
    ensures { Answered tree.old tree.new (hand_over user group owner) result }
{
    answer_number(hand_over(tree, user, GroupId(group), owner))
}

pub fn ss_admit(tree: &mut Tree, process: u64, user: u32) -> u32
    requires { Kept tree.old }
    ensures { Answered tree.old tree.new (admit process user) result }
{
    answer_number(admit(tree, ProcessId(process), user))
}

pub fn ss_fork(tree: &mut Tree, parent: u64, process: u64, told: &mut [u64; 2]) -> u32
    requires { Kept tree.old }
    ensures answered { Answered tree.old tree.new (fork parent process) result }
    ensures told_after { told.new ≡ room_words (reply (view tree.old) (fork parent process)) }
{
    let a = fork(tree, ProcessId(parent), ProcessId(process));
    *told = [room_group(a), room_count(a)];
    room_number(Resource::Processes, a)
}

pub fn ss_exit(tree: &mut Tree, process: u64) -> u32
    requires { Kept tree.old }
    ensures { Answered tree.old tree.new (exit process) result }
{
    answer_number(exit(tree, ProcessId(process)))
}

pub fn ss_collect(tree: &mut Tree, process: u64) -> u32
    requires { Kept tree.old }
    ensures { Answered tree.old tree.new (collect process) result }
{
    answer_number(collect(tree, ProcessId(process)))
}

pub fn ss_charge(tree: &mut Tree, process: u64, pages: u64, told: &mut [u64; 2]) -> u32
    requires { Kept tree.old }
    ensures answered { Answered tree.old tree.new (charge process pages) result }
    ensures told_after { told.new ≡ room_words (reply (view tree.old) (charge process pages)) }
{
    let a = charge(tree, ProcessId(process), pages);
    *told = [room_group(a), room_count(a)];
    room_number(Resource::Pages, a)
}

pub fn ss_release(tree: &mut Tree, group: u64, pages: u64) -> u32
    requires { Kept tree.old }
    ensures { Answered tree.old tree.new (release group pages) result }
{
    answer_number(release(tree, GroupId(group), pages))
}
