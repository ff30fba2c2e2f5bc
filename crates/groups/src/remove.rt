// Document 01, "Remove". The group's own row says whether anything is in it, and only its parent's changes with it.
ghost use Rattle.std.specs.Prelude.{◌≡◌, ◌||◌, eqb};
ghost use Rattle.model.specs.Rules.{has_child, has_process};
ghost use Rattle.model.specs.Calls.{remove, verdict};
ghost use Rattle.tree.specs.Layout.{view};
ghost use Rattle.tree.specs.Kept.{Kept, KeptAt};
ghost use Rattle.tree.specs.Calling.{Called};

use super::live::vet_live;
use model::{Errno, GroupId};
use tree::counter::{adjust, count};
use tree::group::{clear_group, depth, own, parent, set_own};
use tree::layout::{ROOT, Tree};
use tree::removed::set_removed;
use tree::rule::{has_child, has_process, may_write};
use tree::sum::Counter;

// Whether a group is in use: it is the root, or a live child or a live process is in it.
#[tactic(auto, using(std::proofs::lemmas::Bool::Decides::nat_tests))]
fn is_in_use(tree: &Tree, group: GroupId) -> bool
    requires { KeptAt tree.now group.0 }
    ensures { result ≡ (eqb group.0 0 || (has_child (view tree.now) group.0 || has_process (view tree.now) group.0)) }
{
    group == ROOT || has_child(tree, group) || has_process(tree, group)
}

// 22 the number out of range; 2 not live; 13 the user may not write the parent; 16 in use. The root's parent is the root itself,
// whose owner is user 0.
#[tactic(auto, using(std::proofs::lemmas::Bool::Decides::nat_tests), unfolding(model::specs::Checks::first, model::specs::Calls::verdict, model::specs::Calls::checks))]
fn vet_remove(tree: &Tree, user: u32, group: GroupId) -> Result<(), Errno>
    requires { Kept tree.now }
    ensures { result ≡ verdict (view tree.now) (remove user group.0) }
{
    vet_live(tree, group)?;
    if !may_write(tree, user, parent(tree, group)) {
        return Err(Errno::Eacces);
    }
    if is_in_use(tree, group) {
        return Err(Errno::Ebusy);
    }
    Ok(())
}

// The group is no longer live, and its own pages pass to its parent. No running sum above it changes. Where zombies ended inside it, what
// their paths need is left of it.
pub fn remove(tree: &mut Tree, user: u32, group: GroupId) -> Result<(), Errno>
    requires { Kept tree.old }
    ensures { Called tree.old tree.new (remove user group.0) result }
{
    vet_remove(tree, user, group)?;
    let above = parent(tree, group);
    let deep = depth(tree, group);
    let waiting = count(tree, group, Counter::Zombies);
    let held = own(tree, above);
    let pages = held + own(tree, group);
    adjust(tree, above, Counter::Children, 0, 1);
    set_own(tree, above, pages);
    clear_group(tree, group);
    if waiting == 0 {
        return Ok(());
    }
    set_removed(tree, group, above, deep);
    adjust(tree, group, Counter::Zombies, waiting, 0);
    Ok(())
}
