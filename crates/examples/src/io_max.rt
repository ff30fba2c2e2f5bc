// Evenings about io.max, of order 1. User 0 writes it.
use super::evening::Evening;
use std::io;

// Lines for devices of group 1.
fn limit(evening: &mut Evening, lines: &[&str]) -> io::Result<()> {
    for line in lines {
        evening.write_setting(0, 1, "io.max", line)?;
    }
    Ok(())
}

fn show(evening: &Evening) -> io::Result<()> {
    evening.read(1, "io.max")
}

// The order's own line, written in parts.
fn example(evening: &mut Evening) -> io::Result<()> {
    show(evening)?;
    limit(
        evening,
        &["8:16 wiops=120 riops=9 rbps=2097152", "8:16 riops=max"],
    )?;
    show(evening)?;
    limit(evening, &["8:16 rbps=1 rbps=1", "256:0 rbps=0"])
}

fn fill_up(evening: &mut Evening) -> io::Result<()> {
    limit(evening, &["10:0 rbps=5", "8:2 wbps=6", "255:255 wiops=8"])
}

// A fifth device, and the same when another has gone.
fn fifth(evening: &mut Evening) -> io::Result<()> {
    limit(evening, &["9:0 rbps=1", "10:0 rbps=max", "9:0 rbps=1"])?;
    show(evening)
}

pub(crate) fn of_a_group(evening: &mut Evening) -> io::Result<()> {
    let title = "Order 1: io.max, a line for a device; a fifth device is 28";
    evening.begin(title, 1024)?;
    evening.make(0, 0, 1)?;
    evening.write_subtree_control(0, 0, "+io")?;
    example(evening)?;
    fill_up(evening)?;
    fifth(evening)
}
