// What is right where document 01 lists a slip that looks right.
use super::evening::Evening;
use std::io;

pub(crate) fn pids_limit_and_move(evening: &mut Evening) -> io::Result<()> {
    evening.begin("A pids limit stops forks, and no move", 1024)?;
    evening.make(0, 0, 1)?;
    evening.write_subtree_control(0, 0, "+pids")?;
    evening.write_figure(1, "pids.max", 1)?;
    evening.admit(5, 0)?;
    evening.admit(6, 0)?;
    evening.write_procs(0, 1, 5)?;
    evening.write_procs(0, 1, 6)?;
    evening.read(1, "pids.current")?;
    evening.fork(5, 7)
}

pub(crate) fn pages_stay(evening: &mut Evening) -> io::Result<()> {
    let title = "Pages stay where they were charged when a process moves";
    evening.begin(title, 1024)?;
    evening.make(0, 0, 1)?;
    evening.make(0, 0, 2)?;
    evening.write_subtree_control(0, 0, "+memory")?;
    evening.admit_to(1, 5)?;
    evening.charge(5, 3)?;
    evening.write_procs(0, 2, 5)?;
    evening.read(1, "memory.current")?;
    evening.read(2, "memory.current")
}

pub(crate) fn limit_of_the_owner(evening: &mut Evening) -> io::Result<()> {
    let title = "Who owns a group alone may not raise its memory.max";
    evening.begin(title, 1024)?;
    evening.make(0, 0, 1)?;
    evening.write_subtree_control(0, 0, "+memory")?;
    evening.write_figure(1, "memory.max", 4096)?;
    evening.hand_over(0, 1, 1000)?;
    evening.write_setting(1000, 1, "memory.max", "max")?;
    evening.read(1, "memory.max")
}

pub(crate) fn nothing_halfway(evening: &mut Evening) -> io::Result<()> {
    let title = "A charge that is refused further up leaves nothing below";
    evening.begin(title, 1024)?;
    evening.make_chain(2)?;
    evening.write_subtree_control(0, 0, "+memory")?;
    evening.write_subtree_control(0, 1, "+memory")?;
    evening.write_figure(1, "memory.max", 4096)?;
    evening.admit_to(2, 5)?;
    evening.charge(5, 2)?;
    evening.read(2, "memory.current")?;
    evening.read(1, "memory.current")
}
