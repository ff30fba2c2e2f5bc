// Bytes on a line of output, and parts of them.
use std::fmt;

// Bytes in quotes, as Rust writes them in a byte string; but a tab is \x09.
#[derive(Clone, Copy)]
pub(crate) struct Bytes<'a>(pub(crate) &'a [u8]);

impl fmt::Display for Bytes<'_> {
    fn fmt<W: fmt::Write>(&self, f: &mut fmt::Formatter<W>) -> fmt::Result {
        write!(f, "\"")?;
        for &byte in self.0 {
            match byte {
                b'\n' => write!(f, "\\n")?,
                b' '..=b'~' => f.write_char(char::from(byte))?,
                _ => write!(f, "\\x{byte:02x}")?,
            }
        }
        write!(f, "\"")
    }
}

// So many bytes from a place on, or as many as there are.
pub(crate) fn part(bytes: &[u8], start: u64, length: u64) -> &[u8] {
    let rest = &bytes[bytes.len().min(start as usize)..];
    &rest[..rest.len().min(length as usize)]
}
