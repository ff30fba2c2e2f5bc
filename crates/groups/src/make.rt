// Document 01, "Make". Checks, then one row, and one child more in the parent's.
ghost use Rattle.std.specs.Prelude.{◌≡◌};
ghost use Rattle.model.specs.Calls.{make, verdict};
ghost use Rattle.tree.specs.Layout.{view};
ghost use Rattle.tree.specs.Kept.{Kept};
ghost use Rattle.tree.specs.Calling.{Called};

use model::{Errno, GroupId};
use tree::counter::adjust;
use tree::group::{depth, is_live, set_group};
use tree::layout::{DEEPEST, GROUPS, Tree};
use tree::rule::{is_taken, may_write};
use tree::sum::Counter;

// 22 a number out of range; 2 the parent not live; 17 the new number taken; 13 the user may not write the parent; 11 the parent as
// deep as a group can be.
#[tactic(auto, using(std::proofs::lemmas::Bool::Decides::nat_tests), unfolding(model::specs::Checks::first, model::specs::Calls::verdict, model::specs::Calls::checks))]
fn vet_make(tree: &Tree, user: u32, parent: GroupId, new: GroupId) -> Result<(), Errno>
    requires { Kept tree.now }
    ensures { result ≡ verdict (view tree.now) (make user parent.0 new.0) }
{
    // document 01 asks for the new number between the parent's number and the parent: no `vet_live`
    if GROUPS <= parent.0 || GROUPS <= new.0 {
        return Err(Errno::Einval);
    }
    if !is_live(tree, parent) {
        return Err(Errno::Enoent);
    }
    if is_taken(tree, new) {
        return Err(Errno::Eexist);
    }
    if !may_write(tree, user, parent) {
        return Err(Errno::Eacces);
    }
    if DEEPEST <= depth(tree, parent) {
        return Err(Errno::Eagain);
    }
    Ok(())
}

// A group under `parent`, owned by `user`, with an empty set, the defaults and no pages.
pub fn make(tree: &mut Tree, user: u32, parent: GroupId, new: GroupId) -> Result<(), Errno>
    requires { Kept tree.old }
    ensures { Called tree.old tree.new (make user parent.0 new.0) result }
{
    vet_make(tree, user, parent, new)?;
    let deep = depth(tree, parent) + 1;
    adjust(tree, parent, Counter::Children, 1, 0);
    set_group(tree, new, parent, deep, user);
    Ok(())
}
