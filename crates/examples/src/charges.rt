// Evenings about charges and forks. User 0 does everything.
use super::evening::Evening;
use std::io;

//     0  1024 pages
//     └ 1  memory.max 40960
//       └ 2  memory.max 32768, process 5
fn two_limits(evening: &mut Evening) -> io::Result<()> {
    evening.make_chain(2)?;
    evening.write_subtree_control(0, 0, "+memory")?;
    evening.write_subtree_control(0, 1, "+memory")?;
    evening.write_figure(1, "memory.max", 40960)?;
    evening.write_figure(2, "memory.max", 32768)?;
    evening.admit_to(2, 5)
}

// In P5 the release that is refused comes first: it leaves the six pages where they are.
pub(crate) fn p1_to_p5(evening: &mut Evening) -> io::Result<()> {
    evening.begin("P1 to P5: a charge goes up the chain", 1024)?;
    two_limits(evening)?;
    evening.case(1)?;
    evening.charge(5, 8)?;
    evening.case(2)?;
    evening.charge(5, 1)?;
    evening.case(3)?;
    evening.release(2, 2)?;
    evening.write_figure(1, "memory.max", 20480)?;
    evening.read(1, "memory.current")?;
    evening.case(4)?;
    evening.charge(5, 1)?;
    evening.case(5)?;
    evening.exit(5)?;
    evening.remove(0, 2)?;
    evening.release(1, 7)?;
    evening.release(1, 6)
}

//     0  9 pages
//     └ 1  pids.max 2, memory.max 10 pages
//       └ 2
//         └ 3  process 5
fn limits_above(evening: &mut Evening) -> io::Result<()> {
    evening.make_chain(3)?;
    evening.write_subtree_control(0, 0, "+memory +pids")?;
    evening.write_figure(1, "pids.max", 2)?;
    evening.write_figure(1, "memory.max", 40960)?;
    evening.admit_to(3, 5)
}

// Process 7 is in the root.
pub(crate) fn consulted(evening: &mut Evening) -> io::Result<()> {
    let title = "Charge and fork tell the first group without room, and the groups consulted";
    evening.begin(title, 9)?;
    limits_above(evening)?;
    for (parent, process) in [(5, 6), (5, 7), (9, 1025), (5, 1025), (5, 6)] {
        evening.fork(parent, process)?;
    }
    for (process, pages) in [(5, 9), (5, 1), (5, 2), (9, 0), (5, 0)] {
        evening.charge(process, pages)?;
    }
    evening.admit(7, 0)?;
    evening.charge(7, 1)
}
