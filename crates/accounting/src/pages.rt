// The check of the pages that a charge or a release names; and own pages of a group, whose running sums are the caller's to change.
ghost use Rattle.std.specs.Prelude.{◌≡◌};
ghost use Rattle.model.specs.Checks.{first};
ghost use Rattle.tree.specs.Layout.{view};
ghost use Rattle.tree.specs.Changes.{Wrote};
ghost use Rattle.accounting.specs.Pages.{OwnAdjustable, pages_set, pages_checks};

use model::{Errno, GroupId};
use tree::group::{own, set_own};
use tree::layout::Tree;

// The pages of one charge or release are at most this.
pub const LARGEST_CHARGE: u64 = 1048576;

// 22 pages outside 1 to 1048576.
#[tactic(auto, using(std::proofs::lemmas::Bool::Decides::nat_tests), unfolding(model::specs::Checks::first, crate::specs::Pages::pages_checks))]
pub fn vet_pages(pages: u64) -> Result<(), Errno>
    ensures { result ≡ first (pages_checks pages) }
{
    if !(1..=LARGEST_CHARGE).contains(&pages) {
        return Err(Errno::Einval);
    }
    Ok(())
}

// More own pages of a group, and less.
pub fn adjust_own(tree: &mut Tree, group: GroupId, more: u64, less: u64)
    requires { OwnAdjustable tree.old group.0 more less }
    ensures { Wrote tree.old tree.new (pages_set (view tree.old) group.0 more less) }
{
    let was = own(tree, group);
    let next = was + more - less;
    set_own(tree, group, next);
}
