// Evenings about the hierarchy: control sets, moves, depths, and the last numbers.
use super::evening::Evening;
use std::io;
use tree::layout::DEEPEST;

pub(crate) fn p9(evening: &mut Evening) -> io::Result<()> {
    evening.begin("P9: the last word on a controller counts", 1024)?;
    evening.write_subtree_control(0, 0, "+cpu -cpu +memory")?;
    evening.read(0, "cgroup.subtree_control")
}

//     0
//     └ 1 (user 0)
//       ├ 2 C0 (user 1000)
//       │ ├ 4 C00 (user 1000)
//       │ └ 6 C01 (user 1000)
//       └ 3 C1 (user 1000)
//         └ 5 C10 (user 1000), process 9 of user 1000
fn delegated(evening: &mut Evening) -> io::Result<()> {
    for (parent, group) in [(0, 1), (1, 2), (1, 3)] {
        evening.make(0, parent, group)?;
    }
    evening.hand_over(0, 2, 1000)?;
    evening.hand_over(0, 3, 1000)?;
    for (parent, group) in [(2, 4), (3, 5), (2, 6)] {
        evening.make(1000, parent, group)?;
    }
    evening.admit(9, 1000)?;
    evening.write_procs(0, 5, 9)
}

// The same move passes once user 1000 owns group 1 too.
pub(crate) fn p10(evening: &mut Evening) -> io::Result<()> {
    let title = "P10: a move from C10, group 5, to C00, group 4, asks for their common ancestor";
    evening.begin(title, 1024)?;
    delegated(evening)?;
    for group in [4, 3, 5] {
        evening.write_procs(1000, group, 9)?;
    }
    evening.hand_over(0, 1, 1000)?;
    evening.write_procs(1000, 4, 9)
}

// A chain down to the deepest group, and one group more.
pub(crate) fn depths(evening: &mut Evening) -> io::Result<()> {
    evening.begin("Make under depth 15 passes, under depth 16 is 11", 1024)?;
    evening.make_chain(DEEPEST + 1)?;
    evening.admit_to(DEEPEST, 5)?;
    evening.charge(5, 1)?;
    evening.membership_into(5, &mut [b'.'; 43])
}

// Order 4: the last numbers, and the first that are out of range.
pub(crate) fn last_numbers(evening: &mut Evening) -> io::Result<()> {
    evening.begin("Order 4: groups 0 to 255, processes 1 to 1024", 1024)?;
    evening.make(0, 0, 255)?;
    evening.make(0, 0, 256)?;
    evening.admit(1024, 0)?;
    evening.admit(1025, 0)?;
    for (group, process) in [(256, 1024), (255, 1025), (255, 1024)] {
        evening.write_procs(0, group, process)?;
    }
    evening.membership_into(1024, &mut [b'.'; 8])?;
    evening.read(255, "cgroup.procs")?;
    evening.read(256, "cgroup.procs")
}
