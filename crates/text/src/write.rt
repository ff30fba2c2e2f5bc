// A text that is being made, in an array of fixed size, and the delivery of a text into the caller's buffer.
ghost use Rattle.std.specs.Prelude.{ℕ, ◌+◌, ◌≤◌, ◌<◌, List, [], ◌∷◌, ◌++◌, ◌≡◌, eqb, length, take};
ghost use Rattle.model.specs.Text.{decimal};
ghost use Rattle.model.specs.Files.{delivered};
ghost use Rattle.model.specs.Settings.{limit_text};
ghost use Rattle.text.specs.Write.{Delivers};

use model::{Errno, Limit};
use std::marker::Model;

// The bytes behind the first `len` are nothing yet.
#[derive(Drop)]
pub struct Text<const N: usize> {
    bytes: [u8; N],
    len: usize,
}

// Clauses see the text.
impl<const N: usize> Model for Text<N> {
    ghost Value = { List ℕ };

    ghost view = { λ t. take t.len t.bytes };

    ghost invariant = { λ t. t.len ≤ N };
}

impl<const N: usize> Text<N> {
    pub fn new() -> Self
        ensures { result ≡ [] }
    {
        Text {
            bytes: [0; N],
            len: 0,
        }
    }

    // No text stands there any more.
    pub fn clear(&mut self)
        ensures { self.new ≡ [] }
    {
        self.len = 0;
    }

    // The text so far.
    pub fn as_slice(&self) -> &[u8]
        ensures { result.now ≡ self.now }
    {
        &self.bytes[..self.len]
    }

    pub fn is_empty(&self) -> bool
        ensures { result ≡ eqb (length self.now) 0 }
    {
        self.len == 0
    }

    pub fn push(&mut self, b: u8)
        requires { length self.old < N }
        ensures { self.new ≡ self.old ++ b ∷ [] }
    {
        let at = self.len;
        self.bytes[at] = b;
        self.len = at + 1;
    }

    pub fn push_bytes(&mut self, text: &[u8])
        requires { length self.old + length text.now ≤ N }
        ensures { self.new ≡ self.old ++ text.now }
    {
        let at = self.len;
        let room = &mut self.bytes[..];
        copy(&mut room[at..], text);
        self.len = at + text.len();
    }

    // The number in decimal, with no zero in front.
    pub fn push_number(&mut self, n: u64)
        requires { length self.old + length (decimal n) ≤ N }
        ensures { self.new ≡ self.old ++ decimal n }
    {
        let at = self.len;
        let room = &mut self.bytes[..];
        self.len = at + put_number(&mut room[at..], n);
    }

    // "max", or the figure in decimal.
    pub fn push_limit(&mut self, limit: Limit)
        requires { length self.old + length (limit_text limit) ≤ N }
        ensures { self.new ≡ self.old ++ limit_text limit }
    {
        let Limit::Figure(n) = limit else {
            self.push_bytes(b"max");
            return;
        };
        self.push_number(n);
    }
}

// The number in decimal goes to the front, and its length is told.
fn put_number(out: &mut [u8], n: u64) -> usize
    requires { length (decimal n) ≤ length out.old }
    ensures end { result ≡ length (decimal n) }
    ensures text { take result out.new ≡ decimal n }
{
    if n < 10 {
        out[0] = b'0' + n as u8;
        return 1;
    }
    let end = put_number(out, n / 10);
    out[end] = b'0' + (n % 10) as u8;
    end + 1
}

// The text goes to the front. A loop becomes a `memcpy` behind a test of the length, so that nothing is called for no byte.
fn copy(out: &mut [u8], text: &[u8])
    requires { length text.now ≤ length out.old }
    ensures { out.new ≡ delivered text.now out.old }
{
    for (i, &b) in text.iter().enumerate() {
        out[i] = b;
    }
}

// The text goes to the front of the caller's buffer, and its length is told. Where it does not fit the answer is 28,
// and the buffer stays as it was.
pub fn deliver(buf: &mut [u8], text: &[u8]) -> Result<usize, Errno>
    ensures { Delivers text.now buf.old result buf.new }
{
    if buf.len() < text.len() {
        return Err(Errno::Enospc);
    }
    copy(buf, text);
    Ok(text.len())
}
