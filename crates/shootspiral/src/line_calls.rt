// Lines written to files.
ghost use Rattle.std.specs.Prelude.{◌≡◌};
ghost use Rattle.model.specs.Control.{first_bad_word};
ghost use Rattle.model.specs.Calls.{write_procs, write_control, write_setting};
ghost use Rattle.tree.specs.Kept.{Kept};
ghost use Rattle.tree.specs.Calling.{Answered};
ghost use Rattle.shootspiral.specs.Interface.{part_words};

use super::number::answer_number;
use control::setting::write_setting;
use control::subtree::write_subtree_control;
use lines::control::bad_span;
use model::GroupId;
use processes::migration::write_procs;
use text::line::text_of;
use tree::layout::Tree;

pub fn ss_write_procs(tree: &mut Tree, user: u32, group: u64, line: &[u8]) -> u32
    requires { Kept tree.old }
    ensures { Answered tree.old tree.new (write_procs user group line.now) result }
{
    answer_number(write_procs(tree, user, GroupId(group), line))
}

pub fn ss_write_subtree_control(tree: &mut Tree, user: u32, group: u64, line: &[u8]) -> u32
    requires { Kept tree.old }
    ensures { Answered tree.old tree.new (write_control user group line.now) result }
{
    answer_number(write_subtree_control(tree, user, GroupId(group), line))
}

pub fn ss_write_setting(tree: &mut Tree, user: u32, group: u64, file: &[u8], line: &[u8]) -> u32
    requires { Kept tree.old }
    ensures { Answered tree.old tree.new (write_setting user group file.now line.now) result }
{
    answer_number(write_setting(tree, user, GroupId(group), file, line))
}

// Where the first word is that a control line may not contain, and its length; the line's end and 0 if there is none.
pub fn ss_first_bad_word(line: &[u8], told: &mut [u64; 2])
    ensures { told.new ≡ part_words (first_bad_word line.now) }
{
    let bad = bad_span(text_of(line));
    *told = [bad.start as u64, (bad.end - bad.start) as u64];
}
