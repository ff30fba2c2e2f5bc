// The checks that the calls on one group begin with.
ghost use Rattle.std.specs.Prelude.{◌≡◌, [], ◌∷◌};
ghost use Rattle.model.specs.Checks.{bar, need, first};
ghost use Rattle.model.specs.Tree.{lives};
ghost use Rattle.model.specs.Rules.{no_group_number};
ghost use Rattle.tree.specs.Layout.{view};

use model::{Errno, GroupId};
use tree::group::is_live;
use tree::layout::{GROUPS, Tree};

// 22 the number out of range; 2 not live.
#[tactic(auto, using(std::proofs::lemmas::Bool::Decides::nat_tests), unfolding(model::specs::Checks::first))]
pub fn vet_live(tree: &Tree, group: GroupId) -> Result<(), Errno>
    ensures { result ≡ first (bar (no_group_number group.0) Errno.Einval ∷ need (lives (view tree.now) group.0) Errno.Enoent ∷ []) }
{
    if GROUPS <= group.0 {
        return Err(Errno::Einval);
    }
    if !is_live(tree, group) {
        return Err(Errno::Enoent);
    }
    Ok(())
}
