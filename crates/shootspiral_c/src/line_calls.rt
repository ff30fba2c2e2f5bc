// Lines written to files, exported.
ghost use Rattle.std.specs.Prelude.{◌≡◌};
ghost use Rattle.model.specs.Control.{first_bad_word};
ghost use Rattle.model.specs.Calls.{write_procs, write_control, write_setting};
ghost use Rattle.tree.specs.Kept.{Kept};
ghost use Rattle.tree.specs.Calling.{Answered};
ghost use Rattle.shootspiral.specs.Interface.{part_words};

use shootspiral::line_calls;
use tree::layout::Tree;

#[unsafe(no_mangle)]
pub extern "C" fn ss_write_procs(tree: &mut Tree, user: u32, group: u64, line: &[u8]) -> u32
    requires { Kept tree.old }
    ensures { Answered tree.old tree.new (write_procs user group line.now) result }
{
    line_calls::ss_write_procs(tree, user, group, line)
}

#[unsafe(no_mangle)]
pub extern "C" fn ss_write_subtree_control(
    tree: &mut Tree,
    user: u32,
    group: u64,
    line: &[u8],
) -> u32
    requires { Kept tree.old }
    ensures { Answered tree.old tree.new (write_control user group line.now) result }
{
    line_calls::ss_write_subtree_control(tree, user, group, line)
}

#[unsafe(no_mangle)]
pub extern "C" fn ss_write_setting(
    tree: &mut Tree,
    user: u32,
    group: u64,
    file: &[u8],
    line: &[u8],
) -> u32
    requires { Kept tree.old }
    ensures { Answered tree.old tree.new (write_setting user group file.now line.now) result }
{
    line_calls::ss_write_setting(tree, user, group, file, line)
}

// Where the first word is that a control line may not contain, and its length; the line's end and 0 if there is none.
#[unsafe(no_mangle)]
pub extern "C" fn ss_first_bad_word(line: &[u8], told: &mut [u64; 2])
    ensures { told.new ≡ part_words (first_bad_word line.now) }
{
    line_calls::ss_first_bad_word(line, told);
}
