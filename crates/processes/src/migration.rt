// Migration: a write to cgroup.procs moves the process that the line names into a group. No limit stops a move, and pages stay
// where they are.
ghost use Rattle.std.specs.Prelude.{◌<◌, ◌≡◌};
ghost use Rattle.model.specs.Sizes.{groups, processes};
ghost use Rattle.model.specs.Checks.{first};
ghost use Rattle.model.specs.Rules.{may_move_below, line_process};
ghost use Rattle.model.specs.Calls.{write_procs};
ghost use Rattle.tree.specs.Layout.{view};
ghost use Rattle.tree.specs.Counters.{bottom};
ghost use Rattle.tree.specs.Kept.{Kept, KeptAt};
ghost use Rattle.tree.specs.Calling.{Called};
ghost use Rattle.processes.specs.Place.{Moving, Migratable, Moved};
ghost use Rattle.processes.specs.Migration.{group_checks, line_checks, number_checks, move_checks, named_by, is_closed};

use super::vet::vet_process;
use model::{Controller, Errno, GroupId, ProcessId, Resource};
use text::line::is_too_long;
use text::number::parse_number_line;
use tree::chain::{Chain, chain_of, common_ancestor};
use tree::counter::adjust;
use tree::group::{has, is_live};
use tree::layout::{GROUPS, ROOT, Tree};
use tree::process::{process_group, process_user, put_process};
use tree::rule::may_write;
use tree::sum::Counter;

// 22 the group's number out of range; 2 not live; 13 the user may not write it.
#[tactic(auto, using(std::proofs::lemmas::Bool::Decides::nat_tests), unfolding(model::specs::Checks::first, crate::specs::Migration::group_checks))]
fn vet_group(tree: &Tree, user: u32, group: GroupId) -> Result<(), Errno>
    ensures { result ≡ first (group_checks (view tree.now) user group.0) }
{
    // a flat run of checks, as the paper lists them: a function for the first two is no plainer, and a step more to prove
    if GROUPS <= group.0 {
        return Err(Errno::Einval);
    }
    if !is_live(tree, group) {
        return Err(Errno::Enoent);
    }
    if !may_write(tree, user, group) {
        return Err(Errno::Eacces);
    }
    Ok(())
}

// 22 the number is 0; 3 no such live process.
#[tactic(auto, using(std::proofs::lemmas::Bool::Decides::nat_tests), unfolding(model::specs::Checks::first, crate::specs::Migration::number_checks))]
fn vet_number(tree: &Tree, number: u64) -> Result<ProcessId, Errno>
    requires { Kept tree.now }
    ensures { result ≡ named_by (first (number_checks (view tree.now) number)) number }
{
    if number == 0 {
        return Err(Errno::Einval);
    }
    let process = ProcessId(number);
    vet_process(tree, process)?;
    Ok(process)
}

// 22 the line too long, or not one number word; then as its number. A number that does not fit 64 bits is well formed, and read
// as one that is no process's.
#[tactic(auto, using(std::proofs::lemmas::Bool::Decides::nat_tests), unfolding(model::specs::Checks::first, crate::specs::Migration::number_checks, crate::specs::Migration::line_checks))]
fn vet_line(tree: &Tree, line: &[u8]) -> Result<ProcessId, Errno>
    requires { Kept tree.now }
    ensures { result ≡ named_by (first (line_checks (view tree.now) line.now)) (line_process line.now) }
{
    if is_too_long(line) {
        return Err(Errno::Einval);
    }
    let number = parse_number_line(line).ok_or(Errno::Einval)?;
    vet_number(tree, number)
}

// Whether a user may move a process: user 0, or the process's own user that may write `lowest`, the lowest group that is on both
// chains, source's and target's.
#[tactic(auto, using(std::proofs::lemmas::Bool::Decides::nat_tests))]
fn may_move(tree: &Tree, user: u32, process: ProcessId, lowest: GroupId) -> bool
    requires { (process.0 < processes) × (lowest.0 < groups) }
    ensures { result ≡ may_move_below (view tree.now) user process.0 lowest.0 }
{
    user == 0 || user as u64 == process_user(tree, process) && may_write(tree, user, lowest)
}

// Whether the inner-process rule closes a group to processes: it is not the root, and its set is not empty.
#[tactic(auto, using(std::proofs::lemmas::Bool::Decides::nat_tests), unfolding(model::specs::Control::any_in))]
fn is_closed(tree: &Tree, group: GroupId) -> bool
    requires { KeptAt tree.now group.0 }
    ensures { result ≡ is_closed (view tree.now) group.0 }
{
    // the four by name, and no value for each: the first that is in the set decides, and the rest is not read
    group != ROOT
        && (has(tree, group, Controller::Cpu)
            || has(tree, group, Controller::Io)
            || has(tree, group, Controller::Memory)
            || has(tree, group, Controller::Pids))
}

// 13 the user may not move the process there; 16 the group is closed to processes.
#[tactic(auto, using(std::proofs::lemmas::Bool::Decides::nat_tests), unfolding(model::specs::Checks::first, crate::specs::Migration::move_checks))]
fn vet_move(
    tree: &Tree,
    user: u32,
    process: ProcessId,
    group: GroupId,
    lowest: GroupId,
) -> Result<(), Errno>
    requires { Moving tree.now process.0 group.0 lowest.0 }
    ensures { result ≡ first (move_checks (view tree.now) user process.0 group.0) }
{
    if !may_move(tree, user, process, lowest) {
        return Err(Errno::Eacces);
    }
    if is_closed(tree, group) {
        return Err(Errno::Ebusy);
    }
    Ok(())
}

// Moves a process from the group of one chain to the group of another. Below the lowest group on both the sums of processes have one
// less along the one and one more along the other; from there up, one less and one more would be none. The walks are here and not in
// a function of their own: D130. The one group has a member less, and the other one more.
fn migrate(tree: &mut Tree, process: ProcessId, source: Chain, target: Chain, lowest: GroupId)
    requires { Migratable tree.old process.0 source target lowest.0 }
    ensures { Moved tree.old tree.new process.0 (bottom target) }
{
    // by index: a `for` over the array is compiled to all of its places, and a move takes a tenth more instructions
    let mut i: usize = 0;
    while source.at[i] != lowest {
        adjust(tree, source.at[i], Counter::Of(Resource::Processes), 0, 1);
        i += 1;
    }
    let mut j: usize = 0;
    while target.at[j] != lowest {
        adjust(tree, target.at[j], Counter::Of(Resource::Processes), 1, 0);
        j += 1;
    }
    let own_user = process_user(tree, process);
    adjust(tree, source.at[0], Counter::Members, 0, 1);
    adjust(tree, target.at[0], Counter::Members, 1, 0);
    put_process(tree, process, target.at[0], own_user);
}

// Moves the process that the line names into a group.
pub fn write_procs(tree: &mut Tree, user: u32, group: GroupId, line: &[u8]) -> Result<(), Errno>
    requires { Kept tree.old }
    ensures { Called tree.old tree.new (write_procs user group.0 line.now) result }
{
    vet_group(tree, user, group)?;
    let process = vet_line(tree, line)?;
    let home = process_group(tree, process);
    let meeting = common_ancestor(tree, home, group);
    vet_move(tree, user, process, group, meeting.group)?;
    let source = chain_of(tree, home);
    let target = chain_of(tree, group);
    migrate(tree, process, source, target, meeting.group);
    Ok(())
}
