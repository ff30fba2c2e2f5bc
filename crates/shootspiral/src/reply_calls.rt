// Texts read into a reply buffer of the caller's.
ghost use Rattle.model.specs.Calls.{read, membership};
ghost use Rattle.model.specs.Replies.{reply as reply_of};
ghost use Rattle.tree.specs.Layout.{view};
ghost use Rattle.tree.specs.Kept.{Kept};
ghost use Rattle.tree.specs.Calling.{Answered};
ghost use Rattle.shootspiral.specs.Interface.{Told};

use super::number::{answer_number, read_length};
use files::reader::{membership, read};
use model::{GroupId, ProcessId};
use tree::layout::Tree;

pub fn ss_read(tree: &Tree, group: u64, file: &[u8], reply: &mut [u8], told: &mut [u64; 1]) -> u32
    requires { Kept tree.now }
    ensures answered { Answered tree.now tree.now (read group file.now reply.old) result }
    ensures told { Told (reply_of (view tree.now) (read group file.now reply.old))
        told.new reply.new }
{
    let a = read(tree, GroupId(group), file, reply);
    *told = [read_length(a)];
    answer_number(a)
}

pub fn ss_membership(tree: &Tree, process: u64, reply: &mut [u8], told: &mut [u64; 1]) -> u32
    requires { Kept tree.now }
    ensures answered { Answered tree.now tree.now (membership process reply.old) result }
    ensures told { Told (reply_of (view tree.now) (membership process reply.old))
        told.new reply.new }
{
    let a = membership(tree, ProcessId(process), reply);
    *told = [read_length(a)];
    answer_number(a)
}
