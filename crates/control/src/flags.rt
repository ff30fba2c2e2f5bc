// What a control line does to a group's set: a flag for each controller, and whether one is set.
ghost use Rattle.std.specs.Prelude.{◌≡◌, ◌<◌};
ghost use Rattle.model.specs.Sizes.{groups};
ghost use Rattle.model.specs.Control.{any_controller, at_controller};
ghost use Rattle.tree.specs.Layout.{view};
ghost use Rattle.tree.specs.Counters.{HasParent};
ghost use Rattle.control.specs.Flags.{EachFlag, asks_of, new_set, absent, joining, leaving};

use lines::control::Wish;
use model::{GroupId, PerController};
use tree::group::has;
use tree::layout::Tree;
use tree::rule::is_available;

// Whether some flag is set.
#[tactic(auto, unfolding(model::specs::Control::any_in))]
pub fn is_any(f: PerController<bool>) -> bool
    ensures { result ≡ any_controller (at_controller f) }
{
    f.cpu || f.io || f.memory || f.pids
}

// The controllers in the set once the wishes are granted.
pub fn new_set(t: &Tree, g: GroupId, wishes: PerController<Wish>) -> PerController<bool>
    requires { g.0 < groups }
    ensures { EachFlag result (new_set (view t.now) g.0 (asks_of wishes)) }
{
    PerController::from_fn(|c| match wishes.get(c) {
        Wish::Keep => has(t, g, c),
        Wish::Enable => true,
        Wish::Disable => false,
    })
}

// Those that are wanted and that the group may not have.
pub fn absent(t: &Tree, g: GroupId, wishes: PerController<Wish>) -> PerController<bool>
    requires { HasParent t.now g.0 }
    ensures { EachFlag result (absent (view t.now) g.0 (asks_of wishes)) }
{
    PerController::from_fn(|c| wishes.get(c) == Wish::Enable && !is_available(t, c, g))
}

// Those that join the set, and those that leave it.
pub fn joining(t: &Tree, g: GroupId, wishes: PerController<Wish>) -> PerController<bool>
    requires { g.0 < groups }
    ensures { EachFlag result (joining (view t.now) g.0 (asks_of wishes)) }
{
    PerController::from_fn(|c| wishes.get(c) == Wish::Enable && !has(t, g, c))
}

pub fn leaving(t: &Tree, g: GroupId, wishes: PerController<Wish>) -> PerController<bool>
    requires { g.0 < groups }
    ensures { EachFlag result (leaving (view t.now) g.0 (asks_of wishes)) }
{
    PerController::from_fn(|c| wishes.get(c) == Wish::Disable && has(t, g, c))
}
