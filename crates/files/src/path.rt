// The path of a group that is live or was removed, and the membership line of a process that is live or a zombie.
ghost use Rattle.std.specs.Prelude.{◌+◌, ◌≤◌, ◌<◌, ◌++◌, ◌≡◌, length};
ghost use Rattle.model.specs.Sizes.{groups, longest_membership};
ghost use Rattle.model.specs.Zombies.{path_parents, path_depths};
ghost use Rattle.model.specs.Files.{path, deleted_mark, membership_line};
ghost use Rattle.tree.specs.Layout.{view};
ghost use Rattle.files.specs.Texts.{place_path, ThereAt, HasPath, HasLine};

use model::{GroupId, ProcessId};
use text::write::Text;
use tree::group::{depth, is_live, parent};
use tree::layout::{DEEPEST, ROOT, Tree};
use tree::process::last_group;
use tree::removed::{removed_depth, removed_parent};

// The longest membership line: "0::", for each level a number of three digits at most after "/", " (deleted)", and a newline.
const LONGEST_MEMBERSHIP: usize = DEEPEST as usize * 4 + 14;

// A membership line that is being made. Nothing else is made here, and a recursion that is generic in the size of what it writes to gets
// no proof.
pub type Line = Text<LONGEST_MEMBERSHIP>;

// The parent and the depth of a group, or of what is left of it.
fn path_parent(t: &Tree, g: GroupId) -> GroupId
    requires { g.0 < groups }
    ensures { result.0 ≡ path_parents (view t.now) g.0 }
{
    if is_live(t, g) {
        parent(t, g)
    } else {
        removed_parent(t, g)
    }
}

fn path_depth(t: &Tree, g: GroupId) -> u64
    requires { g.0 < groups }
    ensures { result ≡ path_depths (view t.now) g.0 }
{
    if is_live(t, g) {
        depth(t, g)
    } else {
        removed_depth(t, g)
    }
}

// The path of a group that is no deeper than `deep`: the path of its parent, and then its own number. The root has none.
fn put_path(t: &Tree, g: GroupId, deep: u64, out: &mut Line)
    requires { HasPath t.now g.0 deep out.old }
    ensures { out.new ≡ out.old ++ path (path_parents (view t.now)) deep g.0 }
{
    if g == ROOT {
        return;
    }
    put_path(t, path_parent(t, g), deep - 1, out);
    out.push(b'/');
    out.push_number(g.0);
}

// The path that a membership line shows: of the root it is "/".
fn put_place(t: &Tree, g: GroupId, out: &mut Line)
    requires { ThereAt t.now g.0 × (length out.old + length (place_path (view t.now) g.0) ≤ longest_membership) }
    ensures { out.new ≡ out.old ++ place_path (view t.now) g.0 }
{
    if g == ROOT {
        out.push(b'/');
    } else {
        put_path(t, g, path_depth(t, g), out);
    }
}

// " (deleted)" behind the path of a group that is not live any more.
fn put_mark(t: &Tree, g: GroupId, out: &mut Line)
    requires { (g.0 < groups) × (length out.old + length (deleted_mark (view t.now) g.0) ≤ longest_membership) }
    ensures { out.new ≡ out.old ++ deleted_mark (view t.now) g.0 }
{
    if !is_live(t, g) {
        out.push_bytes(b" (deleted)");
    }
}

// The membership line of a live process or a zombie.
pub fn put_membership(t: &Tree, p: ProcessId, out: &mut Line)
    requires { HasLine t.now p.0 }
    ensures { out.new ≡ membership_line (view t.now) p.0 }
{
    let group = last_group(t, p);
    out.clear();
    out.push_bytes(b"0::");
    put_place(t, group, out);
    put_mark(t, group, out);
    out.push(b'\n');
}
