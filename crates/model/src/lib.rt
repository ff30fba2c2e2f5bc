// The public types: what the definitions in specs/ speak of, and what every call takes and answers.
// Of code there is only what makes and reads them. The rules are in specs/, why the demands follow from them in proofs/.
#![tactic(auto)]

ghost use Rattle.std.specs.Prelude.{◌≡◌};
ghost use Rattle.model.specs.declared.Controller.{Controller};
ghost use Rattle.model.specs.Control.{at_controller};
ghost use Rattle.model.specs.Devices.{at_key};
ghost use Rattle.model.specs.declared.Key.{Key};

// A group's number. Any number can be written; the calls refuse those out of range.
#[derive(Clone, Copy, PartialEq, Eq)]
pub struct GroupId(pub u64);

// A process's number. A type of its own, so that it cannot change places with a group's.
#[derive(Clone, Copy)]
pub struct ProcessId(pub u64);

// What a limit counts: the pages or the live processes inside a group.
#[derive(Clone, Copy)]
pub enum Resource {
    Pages,
    Processes,
}

// "A limit is either a figure or no limit at all." A group's limits are in pages and in processes; the quota of cpu.max and a
// limit as it is written or shown are in the file's own figures. No Option: document 01 names the enum, and that it is taken apart by
// let else; and "max" is a value of the file, where an Option of it says whether there is one.
#[derive(Clone, Copy)]
pub enum Limit {
    NoLimit,
    Figure(u64),
}

// The controllers, in the order in which they are listed.
#[derive(Clone, Copy)]
pub enum Controller {
    Cpu,
    Io,
    Memory,
    Pids,
}

pub const CONTROLLERS: [Controller; 4] = [
    Controller::Cpu,
    Controller::Io,
    Controller::Memory,
    Controller::Pids,
];

// What io.max limits of a device, in the order in which it is shown: bytes read and written, and operations, in a second.
#[derive(Clone, Copy)]
pub enum Key {
    Rbps,
    Wbps,
    Riops,
    Wiops,
}

// A value for each key of io.max.
#[derive(Clone, Copy)]
pub struct PerKey<T> {
    pub rbps: T,
    pub wbps: T,
    pub riops: T,
    pub wiops: T,
}

// A value for each controller. Not one type with the other over what it is for: the fields have the names that lines and files have.
#[derive(Clone, Copy)]
pub struct PerController<T> {
    pub cpu: T,
    pub io: T,
    pub memory: T,
    pub pids: T,
}

impl<T> PerKey<T> {
    ghost use Rattle.model.specs.declared.Key.TheVariants.{Rbps, Wbps, Riops, Wiops};

    // What a function gives each key.
    pub fn from_fn<F: Fn(Key) -> T + Drop>(f: F) -> PerKey<T>
        requires { (k : Key) → F.pre f k }
        ensures rbps { F.post f Rbps result.rbps }
        ensures wbps { F.post f Wbps result.wbps }
        ensures riops { F.post f Riops result.riops }
        ensures wiops { F.post f Wiops result.wiops }
    {
        PerKey {
            rbps: f(Key::Rbps),
            wbps: f(Key::Wbps),
            riops: f(Key::Riops),
            wiops: f(Key::Wiops),
        }
    }
}

impl<T: Copy> PerKey<T> {
    pub fn get(&self, k: Key) -> T
        ensures { result ≡ at_key self.now k }
    {
        match k {
            Key::Rbps => self.rbps,
            Key::Wbps => self.wbps,
            Key::Riops => self.riops,
            Key::Wiops => self.wiops,
        }
    }
}

impl<T> PerController<T> {
    ghost use Rattle.model.specs.declared.Controller.TheVariants.{Cpu, Io, Memory, Pids};

    // What a function gives each controller.
    pub fn from_fn<F: Fn(Controller) -> T + Drop>(f: F) -> PerController<T>
        requires { (c : Controller) → F.pre f c }
        ensures cpu { F.post f Cpu result.cpu }
        ensures io { F.post f Io result.io }
        ensures memory { F.post f Memory result.memory }
        ensures pids { F.post f Pids result.pids }
    {
        PerController {
            cpu: f(Controller::Cpu),
            io: f(Controller::Io),
            memory: f(Controller::Memory),
            pids: f(Controller::Pids),
        }
    }
}

impl<T: Copy> PerController<T> {
    pub fn get(&self, c: Controller) -> T
        ensures { result ≡ at_controller self.now c }
    {
        match c {
            Controller::Cpu => self.cpu,
            Controller::Io => self.io,
            Controller::Memory => self.memory,
            Controller::Pids => self.pids,
        }
    }
}

// What a line of io.max gives the keys; a key that it does not name is given nothing.
pub type Pairs = PerKey<Option<Limit>>;

// The files that set something: cpu.weight, cpu.max, io.max, and the limit of a resource, memory.max or pids.max.
#[derive(Clone, Copy)]
pub enum Setting {
    CpuWeight,
    CpuMax,
    IoMax,
    Max(Resource),
}

// What a line gives a setting, in the file's own figures: memory.max in bytes.
#[derive(Clone, Copy)]
pub enum SettingValue {
    Weight(u64),
    // cpu.max with one word, which leaves the period
    Quota(Limit),
    Bandwidth(Limit, u64),
    // io.max: a device's major and minor number, and what its keys are given
    Device(u64, u64, Pairs),
    Maximum(Resource, Limit),
}

// The files of a group: cgroup.procs, cgroup.controllers, cgroup.subtree_control, cgroup.events,
// memory.current or pids.current, and the settings.
#[derive(Clone, Copy)]
pub enum File {
    Procs,
    Controllers,
    SubtreeControl,
    Events,
    Current(Resource),
    Value(Setting),
}

// The numbers that the host says no with, by their names in document 01's table.
#[derive(Clone, Copy)]
pub enum Errno {
    // group not live, file absent there, controller not available
    Enoent = 2,
    // no such live process
    Esrch = 3,
    // depth limit, or a pids limit stops a fork
    Eagain = 11,
    // a memory limit or the machine stops a charge
    Enomem = 12,
    // the user may not
    Eacces = 13,
    // group in use, or the inner-process rule
    Ebusy = 16,
    // number already live
    Eexist = 17,
    // number out of range or text malformed
    Einval = 22,
    // reply buffer shorter than the reply, or a device too many
    Enospc = 28,
    // well-formed figure outside its range, or too many pages released
    Erange = 34,
}

// The first group, going up, that has no room for a charge or a fork, and the number of groups consulted, it among them.
#[derive(Clone, Copy)]
pub struct NoRoom {
    pub group: GroupId,
    pub consulted: u64,
}

// What a charge or a fork is turned away with.
#[derive(Clone, Copy)]
pub enum Denied {
    // 12 for a charge, 11 for a fork
    NoRoom(NoRoom),
    Refused(Errno),
}

impl From<NoRoom> for Denied {
    ghost use Rattle.model.specs.declared.Denied.{Denied as D};

    ghost from_gives = { λ n d. d ≡ D.NoRoom n };

    fn from(n: NoRoom) -> Denied {
        Denied::NoRoom(n)
    }
}

impl From<Errno> for Denied {
    ghost use Rattle.model.specs.declared.Denied.{Denied as D};

    ghost from_gives = { λ e d. d ≡ D.Refused e };

    fn from(e: Errno) -> Denied {
        Denied::Refused(e)
    }
}

// The lowest group on two chains, order 3's meeting group, and the number of pairs of entries that the search for it compared.
#[derive(Clone, Copy)]
pub struct Meeting {
    pub group: GroupId,
    pub compared: u64,
}
