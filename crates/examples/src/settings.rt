// Evenings about settings. User 0 writes them.
use super::evening::Evening;
use std::io;

// Group 1 under the root, with cpu, memory and pids on in it.
fn one_group(evening: &mut Evening, title: &str) -> io::Result<()> {
    evening.begin(title, 1024)?;
    evening.make(0, 0, 1)?;
    evening.write_subtree_control(0, 0, "+cpu +memory +pids")
}

// memory.max of group 1, written and read.
fn show_memory_max(evening: &mut Evening, bytes: u64) -> io::Result<()> {
    evening.write_figure(1, "memory.max", bytes)?;
    evening.read(1, "memory.max")
}

pub(crate) fn p6_p7(evening: &mut Evening) -> io::Result<()> {
    let title = "P6 and P7: memory.max is rounded down to whole pages, and has a largest figure";
    one_group(evening, title)?;
    evening.case(6)?;
    show_memory_max(evening, 4097)?;
    show_memory_max(evening, 0)?;
    evening.case(7)?;
    show_memory_max(evening, 4503599627370496)?;
    show_memory_max(evening, 4503599627370497)?;
    evening.write_setting(0, 1, "memory.max", "max\n")?;
    evening.read(1, "memory.max")
}

pub(crate) fn odd_bytes(evening: &mut Evening) -> io::Result<()> {
    let title = "Order 2: memory.max drops odd bytes, and less than a page refuses every charge";
    one_group(evening, title)?;
    evening.admit_to(1, 5)?;
    show_memory_max(evening, 4095)?;
    evening.charge(5, 1)?;
    show_memory_max(evening, 4097)?;
    evening.charge(5, 1)?;
    evening.charge(5, 1)?;
    show_memory_max(evening, 4503599627370495)
}

pub(crate) fn p8(evening: &mut Evening) -> io::Result<()> {
    one_group(evening, "P8: a weight is one figure from 1 to 10000")?;
    evening.write_figure(1, "cpu.weight", 1)?;
    evening.read(1, "cpu.weight")?;
    for weight in [10000, 0, 10001] {
        evening.write_figure(1, "cpu.weight", weight)?;
    }
    evening.write_setting(0, 1, "cpu.weight", "1 2")?;
    evening.read(1, "cpu.weight")
}
