// Order 5, collect: a zombie goes, and with it what only its path needed of removed groups.
ghost use Rattle.std.specs.Prelude.{◌≡◌};
ghost use Rattle.model.specs.Calls.{collect, verdict};
ghost use Rattle.tree.specs.Layout.{view};
ghost use Rattle.tree.specs.Counters.{Countable};
ghost use Rattle.tree.specs.Kept.{Kept, Settled};
ghost use Rattle.tree.specs.Calling.{Called};
ghost use Rattle.tree.specs.declared.sum.Counter.TheVariants.{Zombies};
ghost use Rattle.processes.specs.Zombie.{Ended, Uncounted, collected_tree};

use model::{Errno, GroupId, ProcessId};
use tree::counter::{adjust, adjust_up};
use tree::group::is_live;
use tree::layout::{PROCESSES, Tree};
use tree::process::{clear_process, is_zombie, zombie_group};
use tree::removed::{clear_removed, removed_parent};
use tree::sum::{Counter, sum};

// One zombie less in a removed group, of which nothing is left without one.
fn uncount(tree: &mut Tree, group: GroupId)
    requires { Countable tree.old Zombies group.0 0 1 }
    ensures { Uncounted tree.old tree.new group.0 }
{
    adjust(tree, group, Counter::Zombies, 0, 1);
    if sum(tree, group, Counter::Zombies) != 0 {
        return;
    }
    clear_removed(tree, group);
}

// A zombie's number is free: one zombie less in the removed groups on its path, and then in the live ones.
fn forget(tree: &mut Tree, process: ProcessId)
    requires { Ended tree.old process.0 }
    ensures { Settled tree.new (collected_tree (view tree.old) process.0) }
{
    let mut here = zombie_group(tree, process);
    while !is_live(tree, here) {
        let above = removed_parent(tree, here);
        uncount(tree, here);
        here = above;
    }
    adjust_up(tree, here, Counter::Zombies, 0, 1);
    clear_process(tree, process);
}

// 3 no zombie.
#[tactic(auto, using(std::proofs::lemmas::Bool::Decides::nat_tests), unfolding(model::specs::Checks::first, model::specs::Calls::verdict, model::specs::Calls::checks))]
fn vet_collect(tree: &Tree, process: ProcessId) -> Result<(), Errno>
    requires { Kept tree.now }
    ensures { result ≡ verdict (view tree.now) (collect process.0) }
{
    if PROCESSES <= process.0 || !is_zombie(tree, process) {
        return Err(Errno::Esrch);
    }
    Ok(())
}

// The process's number is free afterwards.
pub fn collect(tree: &mut Tree, process: ProcessId) -> Result<(), Errno>
    requires { Kept tree.old }
    ensures { Called tree.old tree.new (collect process.0) result }
{
    vet_collect(tree, process)?;
    forget(tree, process);
    Ok(())
}
