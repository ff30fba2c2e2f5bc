// The pairs of a line of io.max: a key and what it is given, in any order, each key at most once.
ghost use Rattle.std.specs.Prelude.{◌≡◌};
ghost use Rattle.model.specs.Functions.{mapped};
ghost use Rattle.model.specs.Text.{words};
ghost use Rattle.model.specs.DeviceLines.{no_pairs, with_pair, pairs_from};
ghost use Rattle.lines.specs.Pair.{clipped_pairs, clipped_word};

use super::name::key_named;
use model::{Key, Limit, Pairs, PerKey};
use text::cut::cut;
use text::limit::parse_limit;
use text::line::Words;

// The pairs with one key given.
fn with_pair(pairs: Pairs, key: Key, limit: Limit) -> Pairs
    ensures { result ≡ with_pair key limit pairs }
{
    let mut pairs = pairs;
    match key {
        Key::Rbps => pairs.rbps = Some(limit),
        Key::Wbps => pairs.wbps = Some(limit),
        Key::Riops => pairs.riops = Some(limit),
        Key::Wiops => pairs.wiops = Some(limit),
    }
    pairs
}

// The pairs after one more word; none where it is no pair, or its key was given already.
fn pair_word(pairs: Pairs, word: &[u8]) -> Option<Pairs>
    ensures { result ≡ clipped_word pairs word.now }
{
    let (name, value) = cut(word, b'=');
    let key = key_named(name)?;
    let limit = parse_limit(value)?;
    if pairs.get(key).is_some() {
        return None;
    }
    Some(with_pair(pairs, key, limit))
}

// What the words of a text give the keys.
pub fn parse_pairs(text: &[u8]) -> Option<Pairs>
    ensures { result ≡ mapped clipped_pairs (pairs_from no_pairs (words text.now)) }
{
    let mut pairs = PerKey::from_fn(|_| None);
    for word in (Words { text }) {
        pairs = pair_word(pairs, word)?;
    }
    Some(pairs)
}
