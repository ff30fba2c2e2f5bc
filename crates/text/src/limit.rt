// Limits as words of a line: "max", or a figure of any size.
ghost use Rattle.std.specs.Prelude.{◌≡◌};
ghost use Rattle.model.specs.Functions.{mapped};
ghost use Rattle.model.specs.Settings.{limit_word};
ghost use Rattle.text.specs.Limit.{clipped_limit};

use super::line::is_same;
use super::number::parse_number;
use model::Limit;

// "max", or a number word.
pub fn parse_limit(word: &[u8]) -> Option<Limit>
    ensures { result ≡ mapped clipped_limit (limit_word word.now) }
{
    if is_same(word, b"max") {
        return Some(Limit::NoLimit);
    }
    let n = parse_number(word)?;
    Some(Limit::Figure(n))
}
