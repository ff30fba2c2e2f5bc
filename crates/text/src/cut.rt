// A word cut in two at the first of a byte, which is in neither part.
ghost use Rattle.std.specs.Prelude.{◌≡◌};
ghost use Rattle.model.specs.DeviceLines.{before, after};

// The second part is empty where the byte is not in the word.
pub fn cut(word: &[u8], byte: u8) -> (&[u8], &[u8])
    ensures first { result.0.now ≡ before byte word.now }
    ensures second { result.1.now ≡ after byte word.now }
{
    let n = word.iter().position(|&b| b == byte).unwrap_or(word.len());
    let (first, rest) = word.split_at(n);
    match rest {
        [] => (first, rest),
        [_, second @ ..] => (first, second),
    }
}
