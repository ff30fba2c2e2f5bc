// The checks of one process that several calls begin with.
ghost use Rattle.std.specs.Prelude.{◌≡◌, [], ◌∷◌, eqb};
ghost use Rattle.model.specs.Checks.{bar, need, first};
ghost use Rattle.model.specs.Tree.{is_live, places};
ghost use Rattle.model.specs.Zombies.{process_taken};
ghost use Rattle.model.specs.Rules.{no_process_number};
ghost use Rattle.tree.specs.Layout.{view};
ghost use Rattle.tree.specs.Kept.{Kept};

use model::{Errno, ProcessId};
use tree::layout::{PROCESSES, Tree};
use tree::process::{is_process, is_taken};

// 3 no such live process.
#[tactic(auto, using(std::proofs::lemmas::Bool::Decides::nat_tests), unfolding(model::specs::Checks::first))]
pub fn vet_process(tree: &Tree, process: ProcessId) -> Result<(), Errno>
    requires { Kept tree.now }
    ensures { result ≡ first (need (is_live (places (view tree.now) process.0)) Errno.Esrch ∷ []) }
{
    if PROCESSES <= process.0 || !is_process(tree, process) {
        return Err(Errno::Esrch);
    }
    Ok(())
}

// 22 the number out of range; 17 taken.
#[tactic(auto, using(std::proofs::lemmas::Bool::Decides::nat_tests), unfolding(model::specs::Checks::first))]
pub fn vet_free(tree: &Tree, process: ProcessId) -> Result<(), Errno>
    ensures { result ≡ first
        (bar (eqb process.0 0) Errno.Einval
        ∷ bar (no_process_number process.0) Errno.Einval
        ∷ bar (process_taken (view tree.now) process.0) Errno.Eexist
        ∷ []) }
{
    if !(1..PROCESSES).contains(&process.0) {
        return Err(Errno::Einval);
    }
    if is_taken(tree, process) {
        return Err(Errno::Eexist);
    }
    Ok(())
}
