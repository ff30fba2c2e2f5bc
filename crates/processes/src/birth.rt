// Births: a process is admitted to the root, or forked into the group of its parent.
ghost use Rattle.std.specs.Prelude.{◌≡◌};
ghost use Rattle.model.specs.Checks.{first};
ghost use Rattle.model.specs.Calls.{admit, fork_checks};
ghost use Rattle.model.specs.Replies.{for_fork};
ghost use Rattle.tree.specs.Layout.{view};
ghost use Rattle.tree.specs.Kept.{Kept};
ghost use Rattle.tree.specs.Calling.{Called, Asked};

use super::place::enter;
use super::vet::{vet_free, vet_process};
use model::{Denied, Errno, GroupId, ProcessId, Resource};
use tree::chain::chain_of;
use tree::counter::{adjust, try_charge};
use tree::layout::{ROOT, Tree};
use tree::process::{process_group, process_user, put_process};
use tree::sum::Counter;

// A process starts in the root. Any user may be admitted, and no limit stops it.
pub fn admit(tree: &mut Tree, process: ProcessId, user: u32) -> Result<(), Errno>
    requires { Kept tree.old }
    ensures { Called tree.old tree.new (admit process.0 user) result }
{
    vet_free(tree, process)?;
    enter(tree, process, ROOT, user as u64);
    Ok(())
}

// The checks before room is asked for: 3 the parent is no live process; 22 the new number out of range; 17 taken.
#[tactic(auto, using(std::proofs::lemmas::Bool::Decides::nat_tests), unfolding(model::specs::Checks::first, model::specs::Calls::fork_checks))]
fn vet_fork(tree: &Tree, parent: ProcessId, new: ProcessId) -> Result<(), Errno>
    requires { Kept tree.now }
    ensures { result ≡ first (fork_checks (view tree.now) parent.0 new.0) }
{
    vet_process(tree, parent)?;
    vet_free(tree, new)
}

// A process in the group of its parent, with the parent's user. Where some group of the chain has no room, answers the first one,
// going up, and how many were consulted; where all have, how many they are.
pub fn fork(tree: &mut Tree, parent: ProcessId, new: ProcessId) -> Result<u64, Denied>
    requires { Kept tree.old }
    ensures { Asked tree.old tree.new (for_fork {p = parent.0} {new = new.0}) result }
{
    vet_fork(tree, parent, new)?;
    let group = process_group(tree, parent);
    let user = process_user(tree, parent);
    let consulted = try_charge(tree, chain_of(tree, group), Resource::Processes, 1)?;
    adjust(tree, group, Counter::Members, 1, 0);
    put_process(tree, new, group, user);
    Ok(consulted)
}
