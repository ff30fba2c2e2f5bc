// Number words: "one or more decimal digits, leading zeros allowed, any value". A figure that does not fit 64 bits is kept as
// the largest that does, which is outside every range of document 01 and of order 1.
ghost use Rattle.std.specs.Prelude.{◌≡◌};
ghost use Rattle.model.specs.Functions.{mapped};
ghost use Rattle.model.specs.Text.{number_word};
ghost use Rattle.model.specs.Rules.{number_line};
ghost use Rattle.text.specs.Number.{clip};

use super::line::sole_word;

// The number that a word writes.
pub fn parse_number(word: &[u8]) -> Option<u64>
    ensures { result ≡ mapped clip (number_word word.now) }
{
    if word.is_empty() {
        return None;
    }
    let mut value: u64 = 0;
    for &b in word {
        if !b.is_ascii_digit() {
            return None;
        }
        value = value.saturating_mul(10).saturating_add(u64::from(b - b'0'));
    }
    Some(value)
}

// The number of a line that is exactly one number word.
pub fn parse_number_line(line: &[u8]) -> Option<u64>
    ensures { result ≡ mapped clip (number_line line.now) }
{
    parse_number(sole_word(line)?)
}
