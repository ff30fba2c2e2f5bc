// Where a process stands, the running sums above it and the members of its group, changed together. It makes no check of its own.
ghost use Rattle.model.specs.Tree.{at};
ghost use Rattle.tree.specs.Layout.{view};
ghost use Rattle.tree.specs.Kept.{Settled};
ghost use Rattle.processes.specs.Place.{Vacant, Standing, Seated, ended_tree};

use model::{GroupId, ProcessId, Resource};
use tree::counter::{adjust, adjust_up};
use tree::layout::Tree;
use tree::process::{process_group, put_process, put_zombie};
use tree::sum::Counter;

// A free number becomes a process of a group.
pub fn enter(tree: &mut Tree, process: ProcessId, group: GroupId, user: u64)
    requires { Vacant tree.old process.0 group.0 }
    ensures { Seated tree.old tree.new process.0 (record { place = at group.0; user = user }) }
{
    adjust_up(tree, group, Counter::Of(Resource::Processes), 1, 0);
    adjust(tree, group, Counter::Members, 1, 0);
    put_process(tree, process, group, user);
}

// A process becomes a zombie of its group.
pub fn leave(tree: &mut Tree, process: ProcessId)
    requires { Standing tree.old process.0 }
    ensures { Settled tree.new (ended_tree (view tree.old) process.0) }
{
    let group = process_group(tree, process);
    adjust_up(tree, group, Counter::Of(Resource::Processes), 0, 1);
    adjust(tree, group, Counter::Members, 0, 1);
    adjust_up(tree, group, Counter::Zombies, 1, 0);
    put_zombie(tree, process, group);
}
