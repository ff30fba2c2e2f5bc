// The ranges of document 01 and of order 1, in the files' own figures: whether a value is in its range.
ghost use Rattle.std.specs.Prelude.{◌≡◌};
ghost use Rattle.model.specs.DeviceLines.{pair_in, pairs_in};
ghost use Rattle.model.specs.Settings.{between, figure_in, largest, in_range};

use model::{Limit, Pairs, Resource, SettingValue};

const LEAST_WEIGHT: u64 = 1;

const LARGEST_WEIGHT: u64 = 10000;

const LEAST_QUOTA: u64 = 1000;

const LARGEST_QUOTA: u64 = 1000000000;

const LEAST_PERIOD: u64 = 1000;

const LARGEST_PERIOD: u64 = 1000000;

const LARGEST_BYTES: u64 = 4503599627370496;

const LARGEST_PROCESSES: u64 = 4194304;

// both numbers of a device are below this
pub const DEVICE_NUMBERS: u64 = 256;

const LEAST_RATE: u64 = 1;

const LARGEST_RATE: u64 = 4503599627370496;

fn is_between(low: u64, high: u64, n: u64) -> bool
    ensures { result ≡ between low high n }
{
    (low..=high).contains(&n)
}

fn is_figure_in(low: u64, high: u64, limit: Limit) -> bool
    ensures { result ≡ figure_in low high limit }
{
    match limit {
        Limit::NoLimit => true,
        Limit::Figure(n) => is_between(low, high, n),
    }
}

fn largest_of(resource: Resource) -> u64
    ensures { result ≡ largest resource }
{
    match resource {
        Resource::Pages => LARGEST_BYTES,
        Resource::Processes => LARGEST_PROCESSES,
    }
}

// Both words of cpu.max.
#[tactic(auto, unfolding(model::specs::Settings::in_range))]
fn is_bandwidth(quota: Limit, period: u64) -> bool
    ensures { result ≡ in_range (SettingValue.Bandwidth quota period) }
{
    is_figure_in(LEAST_QUOTA, LARGEST_QUOTA, quota)
        && is_between(LEAST_PERIOD, LARGEST_PERIOD, period)
}

fn is_pair_in(pair: Option<Limit>) -> bool
    ensures { result ≡ pair_in pair }
{
    match pair {
        None => true,
        Some(limit) => is_figure_in(LEAST_RATE, LARGEST_RATE, limit),
    }
}

fn are_pairs_in(pairs: Pairs) -> bool
    ensures { result ≡ pairs_in pairs }
{
    is_pair_in(pairs.rbps)
        && is_pair_in(pairs.wbps)
        && is_pair_in(pairs.riops)
        && is_pair_in(pairs.wiops)
}

// All of a line of io.max.
#[tactic(auto, unfolding(model::specs::Settings::in_range))]
fn is_device_in(major: u64, minor: u64, pairs: Pairs) -> bool
    ensures { result ≡ in_range (SettingValue.Device major minor pairs) }
{
    major < DEVICE_NUMBERS && minor < DEVICE_NUMBERS && are_pairs_in(pairs)
}

// Whether every figure of a value is in its range.
#[tactic(auto, unfolding(model::specs::Settings::in_range))]
pub fn is_in_range(value: SettingValue) -> bool
    ensures { result ≡ in_range value }
{
    match value {
        SettingValue::Weight(n) => is_between(LEAST_WEIGHT, LARGEST_WEIGHT, n),
        SettingValue::Quota(q) => is_figure_in(LEAST_QUOTA, LARGEST_QUOTA, q),
        SettingValue::Bandwidth(q, p) => is_bandwidth(q, p),
        SettingValue::Device(major, minor, pairs) => is_device_in(major, minor, pairs),
        SettingValue::Maximum(r, l) => is_figure_in(0, largest_of(r), l),
    }
}
