// Lines, their texts and their words. A line is any bytes; its text is the line without its final newline.
ghost use Rattle.std.specs.Prelude.{◌≡◌, ◌+◌, ◌≤◌, [], length, take, drop, Some, None, MatchOption};
ghost use Rattle.std.specs.Iterator.{YieldsFirstBy, item_count};
ghost use Rattle.model.specs.Text.{body, leading_word, same_bytes, too_long, starts, words, line_words};
ghost use Rattle.text.specs.Line.{FirstWord, word_bytes, sole_word};

const LONGEST_LINE: usize = 128;

// A part of a text: from `start` up to `end`.
#[derive(Clone, Copy)]
pub struct Span {
    pub start: usize,
    pub end: usize,
}

// Whether a line is longer than a call may be given, its newline counted.
pub fn is_too_long(line: &[u8]) -> bool
    ensures { result ≡ too_long line.now }
{
    LONGEST_LINE < line.len()
}

// Whether two texts are the same bytes. Not `==`, whose function is never inlined: with a name that is written down, this one becomes
// a few tests.
pub fn is_same(a: &[u8], b: &[u8]) -> bool
    ensures { result ≡ same_bytes a.now b.now }
{
    if a.len() != b.len() {
        return false;
    }
    for i in 0..a.len() {
        if a[i] != b[i] {
            return false;
        }
    }
    true
}

// One final newline is dropped.
pub fn text_of(line: &[u8]) -> &[u8]
    ensures text { result.now ≡ body line.now }
    ensures front { result.now ≡ take (length result.now) line.now }
{
    line.strip_suffix(b"\n").unwrap_or(line)
}

// Where the word that begins at a place ends: before a space, or with the text.
fn word_end(text: &[u8], start: usize) -> usize
    requires { start ≤ length text.now }
    ensures end { result ≡ start + length (leading_word (drop start text.now)) }
    ensures bound { (start ≤ result) × (result ≤ length text.now) }
{
    for i in start..text.len() {
        if text[i] == b' ' {
            return i;
        }
    }
    text.len()
}

// The first word of a text, and what follows it.
pub fn cut_word(text: &[u8]) -> Option<(&[u8], &[u8])>
    ensures { MatchOption result (starts text.now ≡ []) (λ p. FirstWord text.now p.0.now p.1.now) }
{
    let start = text.iter().position(|&b| b != b' ')?;
    let end = word_end(text, start);
    Some((&text[start..end], &text[end..]))
}

// The words of a text that are left to be read, in their order.
#[derive(Clone, Copy)]
pub struct Words<'a> {
    pub text: &'a [u8],
}

impl<'a> Iterator for Words<'a> {
    type Item = &'a [u8];

    ghost next_gives = { YieldsFirstBy word_bytes (λ s. words s.text.now) };

    ghost remaining = { item_count (λ s. words s.text.now) };

    fn next(&mut self) -> Option<&'a [u8]> {
        let (word, rest) = cut_word(self.text)?;
        self.text = rest;
        Some(word)
    }
}

// The word of a line that has exactly one.
pub fn sole_word(line: &[u8]) -> Option<&[u8]>
    ensures { MatchOption result (sole_word (line_words line.now) ≡ None) (λ w. sole_word (line_words line.now) ≡ Some w.now) }
{
    let (word, rest) = cut_word(text_of(line))?;
    if cut_word(rest).is_some() {
        return None;
    }
    Some(word)
}
