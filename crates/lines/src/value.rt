// Values of settings: the form of a line. Whether the figures are in their ranges is asked of the value (range.rt), since a
// malformed word of a line counts before a figure of it that is out of its range. A figure of any size is well formed.
ghost use Rattle.std.specs.Prelude.{◌≡◌, ◌∷◌};
ghost use Rattle.model.specs.Functions.{mapped};
ghost use Rattle.model.specs.Text.{words, line_words};
ghost use Rattle.model.specs.Settings.{value_of};
ghost use Rattle.lines.specs.Value.{clipped};

use super::pair::parse_pairs;
use model::{Resource, Setting, SettingValue};
use text::cut::cut;
use text::limit::parse_limit;
use text::line::{Words, cut_word, sole_word, text_of};
use text::number::{parse_number, parse_number_line};

#[tactic(auto, unfolding(model::specs::Settings::value_of))]
fn parse_weight(line: &[u8]) -> Option<SettingValue>
    ensures { result ≡ mapped clipped (value_of Setting.CpuWeight (line_words line.now)) }
{
    parse_number_line(line).map(SettingValue::Weight)
}

// cpu.max: one word or two.
#[tactic(auto, unfolding(model::specs::Settings::value_of))]
fn parse_bandwidth(line: &[u8]) -> Option<SettingValue>
    ensures { result ≡ mapped clipped (value_of Setting.CpuMax (line_words line.now)) }
{
    let mut words = Words {
        text: text_of(line),
    };
    let quota = parse_limit(words.next()?)?;
    let Some(second) = words.next() else {
        return Some(SettingValue::Quota(quota));
    };
    let period = parse_number(second)?;
    if words.next().is_some() {
        return None;
    }
    Some(SettingValue::Bandwidth(quota, period))
}

#[tactic(auto, unfolding(model::specs::Settings::value_of))]
fn parse_device_and_pairs(device: &[u8], rest: &[u8]) -> Option<SettingValue>
    ensures { result ≡ mapped clipped (value_of Setting.IoMax (device.now ∷ words rest.now)) }
{
    let (major, minor) = cut(device, b':');
    let major = parse_number(major)?;
    let minor = parse_number(minor)?;
    let pairs = parse_pairs(rest)?;
    Some(SettingValue::Device(major, minor, pairs))
}

// io.max: a device, major:minor, then any pairs.
#[tactic(auto, unfolding(model::specs::Settings::value_of))]
fn parse_device(line: &[u8]) -> Option<SettingValue>
    ensures { result ≡ mapped clipped (value_of Setting.IoMax (line_words line.now)) }
{
    let (device, rest) = cut_word(text_of(line))?;
    parse_device_and_pairs(device, rest)
}

#[tactic(auto, unfolding(model::specs::Settings::value_of))]
fn parse_maximum(resource: Resource, line: &[u8]) -> Option<SettingValue>
    ensures { result ≡ mapped clipped (value_of (Setting.Max resource) (line_words line.now)) }
{
    let limit = parse_limit(sole_word(line)?)?;
    Some(SettingValue::Maximum(resource, limit))
}

// The value that a line gives a setting; none where it is malformed: not as many words as the setting takes, a word of another form,
// or a key given twice.
pub fn parse_value(setting: Setting, line: &[u8]) -> Option<SettingValue>
    ensures { result ≡ mapped clipped (value_of setting (line_words line.now)) }
{
    match setting {
        Setting::CpuWeight => parse_weight(line),
        Setting::CpuMax => parse_bandwidth(line),
        Setting::IoMax => parse_device(line),
        Setting::Max(resource) => parse_maximum(resource, line),
    }
}
