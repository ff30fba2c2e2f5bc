// Exit: the end of a process. Its pages stay with its group, and it is a zombie there until it is collected.
ghost use Rattle.model.specs.Calls.{exit};
ghost use Rattle.tree.specs.Kept.{Kept};
ghost use Rattle.tree.specs.Calling.{Called};

use super::place::leave;
use super::vet::vet_process;
use model::{Errno, ProcessId};
use tree::layout::Tree;

// The process is a zombie afterwards.
pub fn exit(tree: &mut Tree, process: ProcessId) -> Result<(), Errno>
    requires { Kept tree.old }
    ensures { Called tree.old tree.new (exit process.0) result }
{
    vet_process(tree, process)?;
    leave(tree, process);
    Ok(())
}
