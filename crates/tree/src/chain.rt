// Chains: a group and its ancestors, lowest first, handed about as one value; and the common ancestor of two groups.
ghost use Rattle.std.specs.Prelude.{min, ◌≡◌};
ghost use Rattle.model.specs.Tree.{depths};
ghost use Rattle.model.specs.CommonAncestor.{meeting, entry_at};
ghost use Rattle.tree.specs.Layout.{view};
ghost use Rattle.tree.specs.Kept.{KeptAt};
ghost use Rattle.tree.specs.Counters.{ChainOf};

use super::group::{depth, parent};
use super::layout::{CHAIN, ROOT, Tree};
use model::{GroupId, Meeting};

// The first `len` groups of `at`: an array by value, built once and passed on, as document 01 asks; there is no heap.
#[derive(Clone, Copy)]
pub struct Chain {
    pub at: [GroupId; CHAIN],
    pub len: usize,
}

pub fn chain_of(t: &Tree, g: GroupId) -> Chain
    requires { KeptAt t.now g.0 }
    ensures { ChainOf (view t.now) g.0 result }
{
    // Places are counted by hand: a `for` over the array was tried, and each of its seventeen places is then written out, so that a
    // charge calls this and copies the chain.
    let mut c = Chain {
        at: [ROOT; CHAIN],
        len: 1,
    };
    let mut here = g;
    let mut i: usize = 0;
    while here != ROOT {
        c.at[i] = here;
        here = parent(t, here);
        i += 1;
    }
    c.at[i] = here;
    c.len = i + 1;
    c
}

// The group on a group's chain at a depth; where the group is no deeper, the group itself.
fn ancestor_at(t: &Tree, g: GroupId, level: u64) -> GroupId
    requires { KeptAt t.now g.0 }
    ensures { result.0 ≡ entry_at (view t.now) g.0 (min (depths (view t.now) g.0) level) }
{
    let mut here = g;
    for _ in level..depth(t, g) {
        here = parent(t, here);
    }
    here
}

// The lowest group on the chains of both groups, and how many pairs were compared. One walk up: only groups of equal depth are
// compared, the lowest pair first.
pub fn common_ancestor(t: &Tree, g: GroupId, h: GroupId) -> Meeting
    requires { KeptAt t.now g.0 × KeptAt t.now h.0 }
    ensures { result ≡ meeting (view t.now) g.0 h.0 }
{
    let mut a = ancestor_at(t, g, depth(t, h));
    let mut b = ancestor_at(t, h, depth(t, g));
    let mut compared: u64 = 1;
    while a != b {
        a = parent(t, a);
        b = parent(t, b);
        compared += 1;
    }
    Meeting { group: a, compared }
}
