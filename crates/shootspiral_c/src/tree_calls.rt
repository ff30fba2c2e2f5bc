// Groups, processes and pages, exported.
ghost use Rattle.std.specs.Prelude.{◌≡◌};
ghost use Rattle.model.specs.Calls.{make, remove, hand_over, admit, fork, exit, collect, charge, release};
ghost use Rattle.model.specs.Replies.{reply};
ghost use Rattle.tree.specs.Layout.{view, tree_words};
ghost use Rattle.tree.specs.Kept.{Kept, Fresh};
ghost use Rattle.tree.specs.Calling.{Answered};
ghost use Rattle.shootspiral.specs.Interface.{room_words};

use shootspiral::tree_calls;
use tree::layout::Tree;

// A fresh tree of so many pages, in memory of the caller's.
#[unsafe(no_mangle)]
pub extern "C" fn ss_fresh(tree: &mut Tree, machine_pages: u64)
    ensures { Fresh machine_pages tree.new }
{
    tree_calls::ss_fresh(tree, machine_pages);
}

// How many words a tree has.
#[unsafe(no_mangle)]
pub extern "C" fn ss_tree_words() -> u64
    ensures { result ≡ tree_words }
{
    tree_calls::ss_tree_words()
}

#[unsafe(no_mangle)]
pub extern "C" fn ss_make(tree: &mut Tree, user: u32, parent: u64, group: u64) -> u32
    requires { Kept tree.old }
    ensures { Answered tree.old tree.new (make user parent group) result }
{
    tree_calls::ss_make(tree, user, parent, group)
}

#[unsafe(no_mangle)]
pub extern "C" fn ss_remove(tree: &mut Tree, user: u32, group: u64) -> u32
    requires { Kept tree.old }
    ensures { Answered tree.old tree.new (remove user group) result }
{
    tree_calls::ss_remove(tree, user, group)
}

#[unsafe(no_mangle)]
pub extern "C" fn ss_hand_over(tree: &mut Tree, user: u32, group: u64, owner: u32) -> u32
    requires { Kept tree.old }
    ensures { Answered tree.old tree.new (hand_over user group owner) result }
{
    tree_calls::ss_hand_over(tree, user, group, owner)
}

#[unsafe(no_mangle)]
pub extern "C" fn ss_admit(tree: &mut Tree, process: u64, user: u32) -> u32
    requires { Kept tree.old }
    ensures { Answered tree.old tree.new (admit process user) result }
{
    tree_calls::ss_admit(tree, process, user)
}

#[unsafe(no_mangle)]
pub extern "C" fn ss_fork(tree: &mut Tree, parent: u64, process: u64, told: &mut [u64; 2]) -> u32
    requires { Kept tree.old }
    ensures answered { Answered tree.old tree.new (fork parent process) result }
    ensures told_after { told.new ≡ room_words (reply (view tree.old) (fork parent process)) }
{
    tree_calls::ss_fork(tree, parent, process, told)
}

#[unsafe(no_mangle)]
pub extern "C" fn ss_exit(tree: &mut Tree, process: u64) -> u32
    requires { Kept tree.old }
    ensures { Answered tree.old tree.new (exit process) result }
{
    tree_calls::ss_exit(tree, process)
}

#[unsafe(no_mangle)]
pub extern "C" fn ss_collect(tree: &mut Tree, process: u64) -> u32
    requires { Kept tree.old }
    ensures { Answered tree.old tree.new (collect process) result }
{
    tree_calls::ss_collect(tree, process)
}

#[unsafe(no_mangle)]
pub extern "C" fn ss_charge(tree: &mut Tree, process: u64, pages: u64, told: &mut [u64; 2]) -> u32
    requires { Kept tree.old }
    ensures answered { Answered tree.old tree.new (charge process pages) result }
    ensures told_after { told.new ≡ room_words (reply (view tree.old) (charge process pages)) }
{
    tree_calls::ss_charge(tree, process, pages, told)
}

#[unsafe(no_mangle)]
pub extern "C" fn ss_release(tree: &mut Tree, group: u64, pages: u64) -> u32
    requires { Kept tree.old }
    ensures { Answered tree.old tree.new (release group pages) result }
{
    tree_calls::ss_release(tree, group, pages)
}
