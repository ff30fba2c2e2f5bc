// A limit as a word of a tree: one more than its figure, so that 0 is none.
ghost use Rattle.std.specs.Prelude.{◌≡◌};
ghost use Rattle.devices.specs.LimitWords.{limit_in, Storable};

use model::Limit;

pub fn limit_in(word: u64) -> Limit
    ensures { result ≡ limit_in word }
{
    match word {
        0 => Limit::NoLimit,
        _ => Limit::Figure(word - 1),
    }
}

pub fn limit_word(l: Limit) -> u64
    requires { Storable l }
    ensures { limit_in result ≡ l }
{
    match l {
        Limit::NoLimit => 0,
        Limit::Figure(n) => n + 1,
    }
}
