// The tests that the checks of the calls are made of: each answers what its definition in model says. A number in
// range is asked for in the clause, and has no type of its own, as in `group`.
ghost use Rattle.std.specs.Prelude.{◌≡◌, ◌<◌};
ghost use Rattle.model.specs.Sizes.{groups, processes};
ghost use Rattle.model.specs.Tree.{cores, places};
ghost use Rattle.model.specs.Hierarchy.{on, child_of};
ghost use Rattle.model.specs.Zombies.{group_taken};
ghost use Rattle.model.specs.Rules.{may_write, available, stands_in, has_child, has_process};
ghost use Rattle.tree.specs.Layout.{view};
ghost use Rattle.tree.specs.Counters.{HasParent};
ghost use Rattle.tree.specs.Kept.{Kept, KeptAt};

use super::counter::count;
use super::group::{has, is_live, owner, parent};
use super::layout::{ROOT, Tree};
use super::process::{is_process, process_group};
use super::sum::{Counter, sum};
use model::{Controller, GroupId, ProcessId};

// User 0, or the group's owner.
pub fn may_write(t: &Tree, user: u32, g: GroupId) -> bool
    requires { g.0 < groups }
    ensures { result ≡ may_write (view t.now) user g.0 }
{
    user == 0 || user as u64 == owner(t, g)
}

// Whether a controller is on in a group: its parent has it in its set.
pub fn is_on(t: &Tree, c: Controller, g: GroupId) -> bool
    requires { HasParent t.now g.0 }
    ensures { result ≡ on (view t.now) c g.0 }
{
    g != ROOT && has(t, parent(t, g), c)
}

// Whether a group may have a controller in its set.
pub fn is_available(t: &Tree, c: Controller, g: GroupId) -> bool
    requires { HasParent t.now g.0 }
    ensures { result ≡ available (view t.now) c g.0 }
{
    g == ROOT || is_on(t, c, g)
}

// Whether group k is a live child of g. Its parent is asked first, so that a pass over all groups reads one word of most rows, unless
// g is the root: a free row has 0 for its parent.
pub fn is_child(t: &Tree, g: GroupId, k: GroupId) -> bool
    requires { k.0 < groups }
    ensures { result ≡ child_of g.0 k.0 (cores (view t.now) k.0) }
{
    parent(t, k) == g && k != ROOT && is_live(t, k)
}

// Whether a process stands in a group.
pub fn stands_in(t: &Tree, p: ProcessId, g: GroupId) -> bool
    requires { p.0 < processes }
    ensures { result ≡ stands_in (places (view t.now) p.0) g.0 }
{
    is_process(t, p) && process_group(t, p) == g
}

// Whether a group has a live child, and whether a live process stands in it: both are counted in its row.
pub fn has_child(t: &Tree, g: GroupId) -> bool
    requires { KeptAt t.now g.0 }
    ensures { result ≡ has_child (view t.now) g.0 }
{
    count(t, g, Counter::Children) != 0
}

pub fn has_process(t: &Tree, g: GroupId) -> bool
    requires { KeptAt t.now g.0 }
    ensures { result ≡ has_process (view t.now) g.0 }
{
    count(t, g, Counter::Members) != 0
}

// Whether a number is taken, so that no group can be made with it: a live group has it, or a zombie's path runs through it.
pub fn is_taken(t: &Tree, g: GroupId) -> bool
    requires { Kept t.now × (g.0 < groups) }
    ensures { result ≡ group_taken (view t.now) g.0 }
{
    is_live(t, g) || sum(t, g, Counter::Zombies) != 0
}
