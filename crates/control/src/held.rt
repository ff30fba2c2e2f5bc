// Whether a controller that leaves a group's set is in the set of a live child: one pass over the groups, however many leave.
ghost use Rattle.std.specs.Prelude.{◌≡◌, ◌<◌};
ghost use Rattle.model.specs.Sizes.{groups};
ghost use Rattle.model.specs.Control.{at_controller};
ghost use Rattle.tree.specs.Layout.{view};
ghost use Rattle.control.specs.Flags.{EachFlag, held, child_holds_any, is_any_held};

use super::flags::is_any;
use model::{GroupId, PerController};
use tree::group::has;
use tree::layout::{GROUPS, Tree};
use tree::rule::is_child;

// Those that leave and that group k has in its set, which is asked only of what leaves.
fn held(t: &Tree, k: GroupId, leaving: PerController<bool>) -> PerController<bool>
    requires { k.0 < groups }
    ensures { EachFlag result (held (view t.now) (at_controller leaving) k.0) }
{
    PerController::from_fn(|c| leaving.get(c) && has(t, k, c))
}

// Whether there is one, and group k is a live child of g.
#[tactic(auto, using(crate::proofs::FlagLaws::any_each), unfolding(crate::specs::Flags::child_holds_any))]
fn child_holds_any(t: &Tree, g: GroupId, k: GroupId, leaving: PerController<bool>) -> bool
    requires { k.0 < groups }
    ensures { result ≡ child_holds_any (view t.now) g.0 (at_controller leaving) k.0 }
{
    is_child(t, g, k) && is_any(held(t, k, leaving))
}

// Whether one of those that leave is in the set of a live child of g. No pass over the groups where none leaves.
#[tactic(auto, using(crate::proofs::HeldLaws::held_in_both))]
pub fn is_any_held(t: &Tree, g: GroupId, leaving: PerController<bool>) -> bool
    ensures { result ≡ is_any_held (view t.now) g.0 (at_controller leaving) }
{
    if !is_any(leaving) {
        return false;
    }
    // a loop in place of `(0..GROUPS).rev().any(..)`: the proof of that did not close
    for k in (0..GROUPS).rev() {
        if child_holds_any(t, g, GroupId(k), leaving) {
            return true;
        }
    }
    false
}
