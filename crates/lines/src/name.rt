// Which name is which: the names of controllers, of settings, of files and of the keys of io.max.
ghost use Rattle.std.specs.Prelude.{ℕ, ◌≡◌, List};
ghost use Rattle.model.specs.Names.{controller_name, controller_named, setting_name, setting_named, file_name, file_named, named};
ghost use Rattle.model.specs.DeviceLines.{key_name, key_named};

use model::{CONTROLLERS, Controller, File, Key, Resource, Setting};
use text::line::is_same;

// What has a name of its own.
pub trait Named: Copy {
    ghost name: { Self → List ℕ };

    fn name(self) -> &'static [u8]
        ensures { result.now ≡ name self };
}

impl Named for Controller {
    ghost name = { controller_name };

    fn name(self) -> &'static [u8] {
        match self {
            Controller::Cpu => b"cpu",
            Controller::Io => b"io",
            Controller::Memory => b"memory",
            Controller::Pids => b"pids",
        }
    }
}

impl Named for Key {
    ghost name = { key_name };

    fn name(self) -> &'static [u8] {
        match self {
            Key::Rbps => b"rbps",
            Key::Wbps => b"wbps",
            Key::Riops => b"riops",
            Key::Wiops => b"wiops",
        }
    }
}

impl Named for Setting {
    ghost name = { setting_name };

    fn name(self) -> &'static [u8] {
        match self {
            Setting::CpuWeight => b"cpu.weight",
            Setting::CpuMax => b"cpu.max",
            Setting::Max(Resource::Pages) => b"memory.max",
            Setting::Max(Resource::Processes) => b"pids.max",
            Setting::IoMax => b"io.max",
        }
    }
}

impl Named for File {
    ghost name = { file_name };

    fn name(self) -> &'static [u8] {
        match self {
            File::Procs => b"cgroup.procs",
            File::Controllers => b"cgroup.controllers",
            File::SubtreeControl => b"cgroup.subtree_control",
            File::Events => b"cgroup.events",
            File::Current(Resource::Pages) => b"memory.current",
            File::Current(Resource::Processes) => b"pids.current",
            File::Value(s) => s.name(),
        }
    }
}

// The first of a list whose name it is.
fn first_named<T: Named>(name: &[u8], all: &[T]) -> Option<T>
    ensures { result ≡ named T.name name.now all.now }
{
    for &one in all {
        if is_same(name, one.name()) {
            return Some(one);
        }
    }
    None
}

// Which controller a word names.
pub fn controller_named(word: &[u8]) -> Option<Controller>
    ensures { result ≡ controller_named word.now }
{
    first_named(word, &CONTROLLERS)
}

// Which key a word names.
pub fn key_named(word: &[u8]) -> Option<Key>
    ensures { result ≡ key_named word.now }
{
    first_named(word, &[Key::Rbps, Key::Wbps, Key::Riops, Key::Wiops])
}

// The files: the settings, then a group's own, then the controllers'.
pub const FILES: usize = 11;

const SETTINGS: usize = 5;

const ALL_FILES: [File; FILES] = [
    File::Value(Setting::CpuWeight),
    File::Value(Setting::CpuMax),
    File::Value(Setting::Max(Resource::Pages)),
    File::Value(Setting::Max(Resource::Processes)),
    File::Value(Setting::IoMax),
    File::Procs,
    File::Controllers,
    File::SubtreeControl,
    File::Events,
    File::Current(Resource::Pages),
    File::Current(Resource::Processes),
];

// Which file a name names: a setting's, one of a group's own, or one of a controller's. In two parts, since LLVM unrolls no longer list.
pub fn file_named(file: &[u8]) -> Option<File>
    ensures { result ≡ file_named file.now }
{
    if let Some(setting) = first_named(file, &ALL_FILES[..SETTINGS]) {
        return Some(setting);
    }
    first_named(file, &ALL_FILES[SETTINGS..])
}

// Which setting a file name names.
pub fn setting_named(file: &[u8]) -> Option<Setting>
    ensures { result ≡ setting_named file.now }
{
    match file_named(file)? {
        File::Value(s) => Some(s),
        _ => None,
    }
}
