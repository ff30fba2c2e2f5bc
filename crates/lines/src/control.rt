// Control lines: what a line asks of each controller, and its first bad word. A word is bad unless it is + or - and the
// name of a controller.
ghost use Rattle.std.specs.Prelude.{◌≡◌};
ghost use Rattle.model.specs.Text.{words};
ghost use Rattle.model.specs.Control.{keep, is_control_word, asked_by, or_before, asked_from, has_bad_word, first_bad_word};
ghost use Rattle.lines.specs.Control.{ask_of, AsksOf, BadSpan, IsPart};

use super::name::{Named, controller_named};
use model::{Controller, PerController};
use text::line::{Span, Words, cut_word, is_same, text_of};

// What is asked of a controller: nothing, that it is in the set, that it is not.
#[derive(Clone, Copy, PartialEq, Eq)]
pub enum Wish {
    Keep,
    Enable,
    Disable,
}

// Whether a word is a sign and the name of a controller.
#[tactic(auto, unfolding(model::specs::Control::is_control_word))]
fn is_control_word(word: &[u8]) -> bool
    ensures { result ≡ is_control_word word.now }
{
    match word {
        [b'+' | b'-', name @ ..] => controller_named(name).is_some(),
        _ => false,
    }
}

// What is asked after one more word.
#[tactic(auto, unfolding(model::specs::Control::asked_by))]
fn wished(word: &[u8], controller: Controller, earlier: Wish) -> Wish
    ensures { ask_of result ≡ or_before (ask_of earlier) (asked_by controller word.now) }
{
    let Some((sign, name)) = word.split_first() else {
        return earlier;
    };
    if !is_same(name, controller.name()) {
        return earlier;
    }
    match sign {
        b'+' => Wish::Enable,
        b'-' => Wish::Disable,
        _ => earlier,
    }
}

// What a control line asks of each controller: the last word on it counts.
pub fn asks(line: &[u8]) -> PerController<Wish>
    ensures { AsksOf line.now result }
{
    let text = text_of(line);
    let mut wishes = PerController::from_fn(|_| Wish::Keep);
    for word in (Words { text }) {
        let earlier = wishes;
        wishes = PerController::from_fn(|c| wished(word, c, earlier.get(c)));
    }
    wishes
}

// Where the first bad word of a text is, or the empty part at its end.
pub fn bad_span(text: &[u8]) -> Span
    ensures { BadSpan text.now result }
{
    let mut left = text;
    while let Some((word, rest)) = cut_word(left) {
        if !is_control_word(word) {
            let end = text.len() - rest.len();
            return Span {
                start: end - word.len(),
                end,
            };
        }
        left = rest;
    }
    Span {
        start: text.len(),
        end: text.len(),
    }
}

// Whether a control line has a bad word.
pub fn has_bad_word(line: &[u8]) -> bool
    ensures { result ≡ has_bad_word line.now }
{
    let text = text_of(line);
    bad_span(text).start != text.len()
}

// The first bad word of a control line, as a part of the caller's own line, or the empty part at its end.
pub fn first_bad_word(line: &[u8]) -> &[u8]
    ensures { IsPart result line.entry (first_bad_word line.now) }
{
    let bad = bad_span(text_of(line));
    &line[bad.start..bad.end]
}
