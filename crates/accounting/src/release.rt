// Release: pages that a group gives back.
ghost use Rattle.std.specs.Prelude.{◌≡◌};
ghost use Rattle.model.specs.Calls.{release, verdict};
ghost use Rattle.tree.specs.Layout.{view};
ghost use Rattle.tree.specs.Kept.{Kept};
ghost use Rattle.tree.specs.Calling.{Called};

use super::pages::{adjust_own, vet_pages};
use model::{Errno, GroupId, Resource};
use tree::counter::adjust_up;
use tree::group::{is_live, own};
use tree::layout::{GROUPS, Tree};
use tree::sum::Counter;

// 22 the group's number out of range, or pages outside 1 to 1048576; 2 not live; 34 more than its own pages.
#[tactic(auto, using(std::proofs::lemmas::Bool::Decides::nat_tests), unfolding(model::specs::Checks::first, model::specs::Calls::verdict, model::specs::Calls::checks, crate::specs::Pages::pages_checks))]
fn vet_release(tree: &Tree, group: GroupId, pages: u64) -> Result<(), Errno>
    ensures { result ≡ verdict (view tree.now) (release group.0 pages) }
{
    if GROUPS <= group.0 {
        return Err(Errno::Einval);
    }
    // document 01 asks for the pages between the group's number and the group
    vet_pages(pages)?;
    if !is_live(tree, group) {
        return Err(Errno::Enoent);
    }
    if own(tree, group) < pages {
        return Err(Errno::Erange);
    }
    Ok(())
}

// Takes pages from a group's own.
pub fn release(tree: &mut Tree, group: GroupId, pages: u64) -> Result<(), Errno>
    requires { Kept tree.old }
    ensures { Called tree.old tree.new (release group.0 pages) result }
{
    vet_release(tree, group, pages)?;
    adjust_up(tree, group, Counter::Of(Resource::Pages), 0, pages);
    adjust_own(tree, group, 0, pages);
    Ok(())
}
