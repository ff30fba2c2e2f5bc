// Texts read into a reply buffer, which holds dots before the call.
use super::Evening;
use crate::bytes::{Bytes, part};
use shootspiral::reply_calls::{ss_membership, ss_read};
use std::{fmt, io};

// What a reader answers: the number, and on success the length of the text.
#[derive(Clone, Copy)]
struct Reading {
    number: u32,
    length: u64,
}

impl fmt::Display for Reading {
    fn fmt<W: fmt::Write>(&self, f: &mut fmt::Formatter<W>) -> fmt::Result {
        let Reading { number, length } = *self;
        if number == 0 {
            write!(f, "0, length {length}")
        } else {
            write!(f, "{number}")
        }
    }
}

impl Evening {
    // The line shows the text alone.
    pub(crate) fn read(&self, group: u64, file: &str) -> io::Result<()> {
        let mut reply = [b'.'; 1000];
        let mut told = [0; 1];
        let number = ss_read(&self.tree, group, file.as_bytes(), &mut reply, &mut told);
        let [length] = told;
        let reading = Reading { number, length };
        let text = Bytes(part(&reply, 0, length));
        println!(self.out; "read group {group}, {file}: {reading}, text {text}")
    }

    // The line shows the whole buffer.
    pub(crate) fn read_into(&self, group: u64, file: &str, reply: &mut [u8]) -> io::Result<()> {
        let size = reply.len();
        let mut told = [0; 1];
        let number = ss_read(&self.tree, group, file.as_bytes(), reply, &mut told);
        let [length] = told;
        let reading = Reading { number, length };
        let buffer = Bytes(reply);
        println!(self.out;
            "read group {group}, {file} into {size} bytes: {reading}, buffer {buffer}"
        )
    }

    pub(crate) fn membership_into(&self, process: u64, reply: &mut [u8]) -> io::Result<()> {
        let size = reply.len();
        let mut told = [0; 1];
        let number = ss_membership(&self.tree, process, reply, &mut told);
        let [length] = told;
        let reading = Reading { number, length };
        let buffer = Bytes(reply);
        println!(self.out;
            "membership process {process} into {size} bytes: {reading}, buffer {buffer}"
        )
    }
}
