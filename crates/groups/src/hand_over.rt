// Document 01, "Hand over". Checks, then one word.
ghost use Rattle.std.specs.Prelude.{◌≡◌};
ghost use Rattle.model.specs.Calls.{hand_over, verdict};
ghost use Rattle.tree.specs.Layout.{view};
ghost use Rattle.tree.specs.Kept.{Kept};
ghost use Rattle.tree.specs.Calling.{Called};

use super::live::vet_live;
use model::{Errno, GroupId};
use tree::group::set_owner;
use tree::layout::{ROOT, Tree};

// 22 the root, or a number out of range; 2 not live; 13 the user is not 0.
#[tactic(auto, using(std::proofs::lemmas::Bool::Decides::nat_tests), unfolding(model::specs::Checks::first, model::specs::Calls::verdict, model::specs::Calls::checks))]
fn vet_hand_over(tree: &Tree, user: u32, group: GroupId, owner: u32) -> Result<(), Errno>
    ensures { result ≡ verdict (view tree.now) (hand_over user group.0 owner) }
{
    if group == ROOT {
        return Err(Errno::Einval);
    }
    vet_live(tree, group)?;
    if user != 0 {
        return Err(Errno::Eacces);
    }
    Ok(())
}

// The group's owner is `owner`.
pub fn hand_over(tree: &mut Tree, user: u32, group: GroupId, owner: u32) -> Result<(), Errno>
    requires { Kept tree.old }
    ensures { Called tree.old tree.new (hand_over user group.0 owner) result }
{
    vet_hand_over(tree, user, group, owner)?;
    set_owner(tree, group, owner);
    Ok(())
}
