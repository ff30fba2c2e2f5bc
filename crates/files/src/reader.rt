// The two calls that deliver a text: a file of a group, and the membership line of a process. Anyone may read.
ghost use Rattle.std.specs.Prelude.{◌≤◌, ◌≡◌};
ghost use Rattle.model.specs.Sizes.{longest_listing};
ghost use Rattle.model.specs.Files.{is_present};
ghost use Rattle.model.specs.Calls.{read, membership};
ghost use Rattle.tree.specs.Layout.{view};
ghost use Rattle.tree.specs.Counters.{HasParent};
ghost use Rattle.tree.specs.Kept.{Kept, KeptAt};
ghost use Rattle.tree.specs.Calling.{Delivering};
ghost use Rattle.files.specs.Texts.{longest, file_contents, Ready, DeliversFile};

use super::list::{put_names, put_procs};
use super::path::{Line, put_membership};
use super::value::{put_current, put_events, put_setting};
use devices::table::MOST_DEVICES;
use lines::name::file_named;
use model::{Errno, File, GroupId, PerController, ProcessId, Setting};
use text::write::{Text, deliver};
use tree::group::{has, is_live};
use tree::layout::{GROUPS, PROCESSES, ROOT, Tree};
use tree::process::is_taken;
use tree::rule::{is_available, is_on};
use tree::setting::{controller_of, setting_controller};

// The longest text of cgroup.procs: a line for every process number. The arrays for the other files are smaller, and so cleared
// sooner.
const LONGEST_LISTING: usize = 4013;

// The longest text of io.max: a line for each device that a group holds, of 97 bytes at most and a newline.
const LONGEST_SHOWN: usize = 98;

const LONGEST_DEVICES: usize = MOST_DEVICES * LONGEST_SHOWN;

const LONGEST_OTHER: usize = 128;

// Whether a group has the file.
fn is_present(t: &Tree, g: GroupId, file: File) -> bool
    requires { HasParent t.now g.0 }
    ensures { result ≡ is_present (view t.now) g.0 file }
{
    match file {
        File::Procs | File::Controllers | File::SubtreeControl => true,
        File::Events => g != ROOT,
        File::Current(r) => is_on(t, controller_of(r), g),
        File::Value(s) => is_on(t, setting_controller(s), g),
    }
}

// The text of a file.
#[tactic(auto, unfolding(crate::specs::Texts::file_contents, model::specs::Files::contents, model::specs::Files::names_of))]
fn put_file<const N: usize>(t: &Tree, g: GroupId, file: File, out: &mut Text<N>)
    requires { Ready t.now g.0 file N }
    ensures { out.new ≡ file_contents t.now g.0 file }
{
    match file {
        File::Procs => put_procs(t, g, out),
        File::Controllers => put_names(&PerController::from_fn(|c| is_available(t, c, g)), out),
        File::SubtreeControl => put_names(&PerController::from_fn(|c| has(t, g, c)), out),
        File::Events => put_events(t, g, out),
        File::Current(r) => put_current(t, g, r, out),
        File::Value(s) => put_setting(t, g, s, out),
    }
}

// A file of a group, made in a scratch array of N bytes and delivered. The array's size alone is generic: a bound of `FnOnce` that
// names a const parameter gets no proof, so `membership` makes its line by itself.
fn read_file<const N: usize>(
    t: &Tree,
    g: GroupId,
    file: File,
    reply: &mut [u8],
) -> Result<usize, Errno>
    requires { KeptAt t.now g.0 × ((longest file ≤ N) × (N ≤ longest_listing)) }
    ensures { DeliversFile t.now g.0 file reply.old result reply.new }
{
    let mut scratch = Text::<N>::new();
    put_file(t, g, file, &mut scratch);
    deliver(reply, scratch.as_slice())
}

// A file of a group. 22 its number out of range; 2 not live, or no such file there; 28 the reply shorter than the text. A refusal
// leaves the reply as it was.
pub fn read(tree: &Tree, group: GroupId, file: &[u8], reply: &mut [u8]) -> Result<usize, Errno>
    requires { Kept tree.now }
    ensures { Delivering tree.now (read group.0 file.now reply.old) result reply.new }
{
    // a flat run of checks, as the paper lists them: a function for the first two is no plainer, and a step more to prove
    if GROUPS <= group.0 {
        return Err(Errno::Einval);
    }
    if !is_live(tree, group) {
        return Err(Errno::Enoent);
    }
    let found = file_named(file).ok_or(Errno::Enoent)?;
    if !is_present(tree, group, found) {
        return Err(Errno::Enoent);
    }
    match found {
        File::Procs => read_file::<LONGEST_LISTING>(tree, group, found, reply),
        // in a `match` of its own: beside a nested pattern it is not known at `_` that the setting is not io.max
        File::Value(s) => match s {
            Setting::IoMax => read_file::<LONGEST_DEVICES>(tree, group, found, reply),
            _ => read_file::<LONGEST_OTHER>(tree, group, found, reply),
        },
        _ => read_file::<LONGEST_OTHER>(tree, group, found, reply),
    }
}

// The membership line of a process. 3 neither live nor a zombie; 28 the reply shorter than the line. A refusal leaves the reply as it was.
pub fn membership(tree: &Tree, process: ProcessId, reply: &mut [u8]) -> Result<usize, Errno>
    requires { Kept tree.now }
    ensures { Delivering tree.now (membership process.0 reply.old) result reply.new }
{
    if PROCESSES <= process.0 || !is_taken(tree, process) {
        return Err(Errno::Esrch);
    }
    let mut line = Line::new();
    put_membership(tree, process, &mut line);
    deliver(reply, line.as_slice())
}
