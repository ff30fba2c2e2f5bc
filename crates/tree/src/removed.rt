// What is left of a removed group while a zombie's path runs through it: its parent and its depth, in one word of its row.
// A number in range is asked for in the clause, and has no type of its own, as in `group`.
ghost use Rattle.std.specs.Prelude.{◌≡◌, ◌-◌, ◌<◌};
ghost use Rattle.model.specs.Sizes.{groups};
ghost use Rattle.model.specs.Tree.{no_remnant, remnant, remains};
ghost use Rattle.model.specs.Zombies.{remnant_parent, remnant_depth};
ghost use Rattle.tree.specs.Layout.{remnant_field, word, view};
ghost use Rattle.tree.specs.Changes.{GroupRow, Wrote, remnant_set};

use super::layout::{GROUPS, Tree};
use super::row::{REMNANT, set_word, word};
use model::GroupId;

// Both as one number; where nothing is left they are 0, as the root's are.
fn left(t: &Tree, g: GroupId) -> u64
    requires { g.0 < groups }
    ensures { result ≡ word t.now g.0 remnant_field - 1 }
{
    word(t, g, REMNANT).saturating_sub(1)
}

// The parent of a removed group.
pub fn removed_parent(t: &Tree, g: GroupId) -> GroupId
    requires { g.0 < groups }
    ensures { result.0 ≡ remnant_parent (remains (view t.now) g.0) }
{
    GroupId(left(t, g) % GROUPS)
}

pub fn removed_depth(t: &Tree, g: GroupId) -> u64
    requires { g.0 < groups }
    ensures { result ≡ remnant_depth (remains (view t.now) g.0) }
{
    left(t, g) / GROUPS
}

pub fn set_removed(t: &mut Tree, g: GroupId, above: GroupId, deep: u64)
    requires { GroupRow t.old g.0 × ((above.0 < groups) × (deep < groups)) }
    ensures { Wrote t.old t.new (remnant_set (view t.old) g.0 (remnant above.0 deep)) }
{
    set_word(t, g, REMNANT, deep * GROUPS + above.0 + 1);
}

// Nothing is left of it any more.
pub fn clear_removed(t: &mut Tree, g: GroupId)
    requires { GroupRow t.old g.0 }
    ensures { Wrote t.old t.new (remnant_set (view t.old) g.0 no_remnant) }
{
    set_word(t, g, REMNANT, 0);
}
