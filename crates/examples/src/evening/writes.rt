// Lines written to files, and the question about a control line.
use super::Evening;
use crate::bytes::{Bytes, part};
use itoa::Buffer;
use shootspiral::line_calls::{
    ss_first_bad_word, ss_write_procs, ss_write_setting, ss_write_subtree_control,
};
use std::{fmt, io};

// The longest line that a call takes; a longer one is shown by its length alone.
const LONGEST_LINE: usize = 128;

#[derive(Clone, Copy)]
struct Line<'a>(&'a [u8]);

impl fmt::Display for Line<'_> {
    fn fmt<W: fmt::Write>(&self, f: &mut fmt::Formatter<W>) -> fmt::Result {
        let length = self.0.len();
        if length > LONGEST_LINE {
            return write!(f, "{length} bytes");
        }
        let bytes = Bytes(self.0);
        write!(f, "{bytes}")
    }
}

impl Evening {
    fn print_write(
        &self,
        user: u32,
        group: u64,
        file: &str,
        line: &str,
        answer: u32,
    ) -> io::Result<()> {
        println!(self.out; "write user {user}, group {group}, {file} {line:?}: {answer}")
    }

    // The line is the process's number.
    pub(crate) fn write_procs(&mut self, user: u32, group: u64, process: u64) -> io::Result<()> {
        let mut digits = Buffer::new();
        let line = digits.format(process);
        let answer = ss_write_procs(&mut self.tree, user, group, line.as_bytes());
        self.print_write(user, group, "cgroup.procs", line, answer)
    }

    pub(crate) fn write_subtree_control(
        &mut self,
        user: u32,
        group: u64,
        line: &str,
    ) -> io::Result<()> {
        let answer = ss_write_subtree_control(&mut self.tree, user, group, line.as_bytes());
        self.print_write(user, group, "cgroup.subtree_control", line, answer)
    }

    pub(crate) fn write_setting(
        &mut self,
        user: u32,
        group: u64,
        file: &str,
        line: &str,
    ) -> io::Result<()> {
        let tree = &mut self.tree;
        let answer = ss_write_setting(tree, user, group, file.as_bytes(), line.as_bytes());
        self.print_write(user, group, file, line, answer)
    }

    // User 0 writes a figure.
    pub(crate) fn write_figure(&mut self, group: u64, file: &str, figure: u64) -> io::Result<()> {
        let mut digits = Buffer::new();
        self.write_setting(0, group, file, digits.format(figure))
    }

    pub(crate) fn first_bad_word(&self, line: &[u8]) -> io::Result<()> {
        let mut told = [0; 2];
        ss_first_bad_word(line, &mut told);
        let [start, length] = told;
        let word = Bytes(part(line, start, length));
        let line = Line(line);
        println!(self.out; "first bad word of {line}: {word}, at {start}, length {length}")
    }
}
