// The counts in a group's row: what stands inside the group, as Linux's page counters count pages up the hierarchy, and the zombies that
// ended inside; its live children and the live processes in it, which are counted there alone.
// A number in range is asked for in the clause, and has no type of its own, as in `group`.
ghost use Rattle.std.specs.Prelude.{◌≡◌, ◌<◌};
ghost use Rattle.model.specs.Sizes.{groups};
ghost use Rattle.tree.specs.Layout.{row_words, with_word, sum_in, sum_field};

use super::layout::Tree;
use super::row::{CHILDREN, MEMBERS, PAGE_SUM, PROCESS_SUM, ZOMBIES, set_word, word};
use model::{GroupId, Resource};

// What is counted: more than limits count, so not a resource.
#[derive(Clone, Copy)]
pub enum Counter {
    // what a limit counts: inside the group
    Of(Resource),
    // the live children of the group, and of no group below it
    Children,
    // the live processes that stand in the group itself
    Members,
    // the zombies inside, of a live group or a removed one
    Zombies,
}

fn sum_field(c: Counter) -> usize
    ensures { (result ≡ sum_field c) × (result < row_words) }
{
    match c {
        Counter::Of(Resource::Pages) => PAGE_SUM,
        Counter::Of(Resource::Processes) => PROCESS_SUM,
        Counter::Children => CHILDREN,
        Counter::Members => MEMBERS,
        Counter::Zombies => ZOMBIES,
    }
}

pub fn sum(t: &Tree, g: GroupId, c: Counter) -> u64
    requires { g.0 < groups }
    ensures { result ≡ sum_in t.now c g.0 }
{
    word(t, g, sum_field(c))
}

pub fn set_sum(t: &mut Tree, g: GroupId, c: Counter, n: u64)
    requires { g.0 < groups }
    ensures { t.new ≡ with_word t.old g.0 (sum_field c) n }
{
    set_word(t, g, sum_field(c), n);
}
