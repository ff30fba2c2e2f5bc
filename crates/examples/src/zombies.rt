// An evening of order 5: a process that has ended, and the groups on its path.
use super::evening::Evening;
use std::io;

// Process 5 has ended in group 2 under group 1.
fn ended(evening: &mut Evening) -> io::Result<()> {
    evening.make_chain(2)?;
    evening.admit_to(2, 5)?;
    evening.exit(5)
}

// Both groups are removed, and their numbers taken until it is collected.
fn removed(evening: &mut Evening) -> io::Result<()> {
    for group in [2, 1] {
        evening.remove(0, group)?;
        evening.make(0, 0, group)?;
    }
    evening.membership_into(5, &mut [b'.'; 18])
}

pub(crate) fn until_collected(evening: &mut Evening) -> io::Result<()> {
    let title = "Order 5: a process that has ended is a zombie until it is collected";
    evening.begin(title, 1024)?;
    ended(evening)?;
    evening.read(2, "cgroup.procs")?;
    evening.membership_into(5, &mut [b'.'; 8])?;
    evening.exit(5)?;
    evening.admit(5, 0)?;
    removed(evening)?;
    evening.collect(5)?;
    evening.collect(5)?;
    evening.make(0, 0, 2)?;
    evening.admit(5, 0)
}
