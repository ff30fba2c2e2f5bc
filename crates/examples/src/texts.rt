// Evenings about texts: replies in buffers of a given length, and the first bad word of a line.
use super::evening::Evening;
use std::io;

// Process 5 in the root, and then in group 7 under group 3.
pub(crate) fn p11(evening: &mut Evening) -> io::Result<()> {
    evening.begin("P11: the membership line of a process", 1024)?;
    evening.make(0, 0, 3)?;
    evening.make(0, 3, 7)?;
    evening.admit(5, 0)?;
    evening.membership_into(5, &mut [b'.'; 10])?;
    evening.write_procs(0, 7, 5)?;
    evening.membership_into(5, &mut [b'.'; 10])
}

pub(crate) fn whole_replies(evening: &mut Evening) -> io::Result<()> {
    let title = "Whole reply: the text at the front of the buffer, or nothing";
    evening.begin(title, 1024)?;
    for process in [200, 3, 12] {
        evening.admit(process, 0)?;
    }
    evening.read_into(0, "cgroup.procs", &mut [b'.'; 8])?;
    evening.read_into(0, "cgroup.procs", &mut [b'.'; 10])?;
    evening.write_subtree_control(0, 0, "+memory +cpu")?;
    evening.read_into(0, "cgroup.subtree_control", &mut [b'.'; 12])
}

// A line longer than any that can be written: 300 spaces before the word.
fn long_line(evening: &Evening) -> io::Result<()> {
    let mut line = [b' '; 303];
    line[300..].copy_from_slice(b"cpu");
    evening.first_bad_word(&line)
}

pub(crate) fn first_bad_words(evening: &Evening) -> io::Result<()> {
    let title = "The first word that a control line may not contain, or the empty part at its end";
    evening.title(title)?;
    let lines: [&[u8]; 8] = [
        b"+cpu +disk -pids\n",
        b"+cpu \n",
        b"",
        b"\n",
        b"\n\n",
        b"  +",
        b"+cpu\t+pids",
        b"-memory \xff ++cpu",
    ];
    for line in lines {
        evening.first_bad_word(line)?;
    }
    long_line(evening)
}
