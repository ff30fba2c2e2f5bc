// Writes to cgroup.subtree_control.
ghost use Rattle.std.specs.Prelude.{◌≡◌};
ghost use Rattle.model.specs.Calls.{verdict, write_control};
ghost use Rattle.tree.specs.Layout.{view};
ghost use Rattle.tree.specs.Kept.{Kept, KeptAt};
ghost use Rattle.tree.specs.Calling.{Called};
ghost use Rattle.control.specs.Flags.{asks_of, joins_populated};

use super::flags::{absent, is_any, joining, leaving, new_set};
use super::held::is_any_held;
use super::reset::set_and_reset;
use lines::control::{Wish, asks, has_bad_word};
use model::{Errno, GroupId, PerController};
use text::line::is_too_long;
use tree::group::is_live;
use tree::layout::{GROUPS, ROOT, Tree};
use tree::rule::{has_process, may_write};

// The inner-process rule: whether a controller joins the set of a group other than the root that holds a process.
#[tactic(auto, using(std::proofs::lemmas::Bool::Decides::nat_tests, crate::proofs::FlagLaws::any_each))]
fn joins_populated(t: &Tree, g: GroupId, wishes: PerController<Wish>) -> bool
    requires { KeptAt t.now g.0 }
    ensures { result ≡ joins_populated (view t.now) g.0 (asks_of wishes) }
{
    g != ROOT && has_process(t, g) && is_any(joining(t, g, wishes))
}

// 22 the group's number out of range; 2 not live; 13 the user may not write it; 22 a line that is too long, or a bad word; 2 a
// wanted controller not available; 16 a controller that leaves is in a child's set, or the inner-process rule.
#[tactic(auto, using(std::proofs::lemmas::Bool::Decides::nat_tests), unfolding(model::specs::Checks::first, model::specs::Calls::verdict, model::specs::Calls::checks))]
fn vet_control(tree: &Tree, user: u32, group: GroupId, line: &[u8]) -> Result<(), Errno>
    requires { Kept tree.now }
    ensures { result ≡ verdict (view tree.now) (write_control user group.0 line.now) }
{
    // a flat run of checks, as the paper lists them: a function for the first two is no plainer, and a step more to prove
    if GROUPS <= group.0 {
        return Err(Errno::Einval);
    }
    if !is_live(tree, group) {
        return Err(Errno::Enoent);
    }
    if !may_write(tree, user, group) {
        return Err(Errno::Eacces);
    }
    if is_too_long(line) || has_bad_word(line) {
        return Err(Errno::Einval);
    }
    let wishes = asks(line);
    if is_any(absent(tree, group, wishes)) {
        return Err(Errno::Enoent);
    }
    if is_any_held(tree, group, leaving(tree, group, wishes))
        || joins_populated(tree, group, wishes)
    {
        return Err(Errno::Ebusy);
    }
    Ok(())
}

// "The last word on a controller counts", all or nothing: the set, and the settings of what leaves it in all children.
pub fn write_subtree_control(
    tree: &mut Tree,
    user: u32,
    group: GroupId,
    line: &[u8],
) -> Result<(), Errno>
    requires { Kept tree.old }
    ensures { Called tree.old tree.new (write_control user group.0 line.now) result }
{
    vet_control(tree, user, group, line)?;
    let wishes = asks(line);
    let set = new_set(tree, group, wishes);
    let gone = leaving(tree, group, wishes);
    set_and_reset(tree, group, set, gone);
    Ok(())
}
