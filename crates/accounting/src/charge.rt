// Charge: pages for the group of a process. Its chain is built once; the search for room along it comes before the first store, so
// there is nothing to undo.
ghost use Rattle.std.specs.Prelude.{◌≡◌};
ghost use Rattle.model.specs.Checks.{first};
ghost use Rattle.model.specs.Calls.{charge_checks};
ghost use Rattle.model.specs.Replies.{for_charge};
ghost use Rattle.tree.specs.Layout.{view};
ghost use Rattle.tree.specs.Kept.{Kept};
ghost use Rattle.tree.specs.Calling.{Asked};

use super::pages::{adjust_own, vet_pages};
use model::{Denied, Errno, ProcessId, Resource};
use tree::chain::chain_of;
use tree::counter::try_charge;
use tree::layout::{PROCESSES, Tree};
use tree::process::{is_process, process_group};

// The checks before room is asked for: 3 no such live process; 22 pages outside 1 to 1048576.
#[tactic(auto, using(std::proofs::lemmas::Bool::Decides::nat_tests), unfolding(model::specs::Checks::first, model::specs::Calls::charge_checks, crate::specs::Pages::pages_checks))]
fn vet_charge(tree: &Tree, process: ProcessId, pages: u64) -> Result<(), Errno>
    requires { Kept tree.now }
    ensures { result ≡ first (charge_checks (view tree.now) process.0 pages) }
{
    // as `processes` begins; with the pages it is one list of checks, and a function for the one test is no plainer
    if PROCESSES <= process.0 || !is_process(tree, process) {
        return Err(Errno::Esrch);
    }
    vet_pages(pages)
}

// Charges pages to the group of a process. Where some group of its chain has no room, answers the first one, going up, and how
// many were consulted; where all have, how many they are.
pub fn charge(tree: &mut Tree, process: ProcessId, pages: u64) -> Result<u64, Denied>
    requires { Kept tree.old }
    ensures { Asked tree.old tree.new (for_charge {p = process.0} {n = pages}) result }
{
    vet_charge(tree, process, pages)?;
    let group = process_group(tree, process);
    let consulted = try_charge(tree, chain_of(tree, group), Resource::Pages, pages)?;
    adjust_own(tree, group, pages, 0);
    Ok(consulted)
}
