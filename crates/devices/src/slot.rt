// A device of io.max and its limits, as words.
ghost use Rattle.std.specs.Prelude.{◌≡◌};
ghost use Rattle.model.specs.Devices.{all_max, or_before};
ghost use Rattle.devices.specs.LimitWords.{limit_in, StorablePair, StorablePairs};
ghost use Rattle.devices.specs.Slots.{unlimited, free_slot, limits_of, SlotChanged};

use super::limit::limit_word;
use model::{Limit, Pairs, PerKey};

// The device is kept as its number plus one, 0 where the slot is free, and a limit as its word: just as the words of a tree keep them.
#[derive(Clone, Copy)]
pub struct Slot {
    pub device: u64,
    pub limits: PerKey<u64>,
}

// The slot of a device that has no limits.
pub fn unlimited(device: u64) -> Slot
    ensures { result ≡ unlimited device }
{
    Slot {
        device,
        limits: PerKey::from_fn(|_| 0),
    }
}

pub fn free() -> Slot
    ensures { result ≡ free_slot }
{
    unlimited(0)
}

// Whether no key has a limit.
pub fn is_all_max(x: Slot) -> bool
    ensures { result ≡ all_max (limits_of x) }
{
    let l = x.limits;
    l.rbps == 0 && l.wbps == 0 && l.riops == 0 && l.wiops == 0
}

// A key that is not given keeps what it had.
fn or_before(word: u64, pair: Option<Limit>) -> u64
    requires { StorablePair pair }
    ensures { limit_in result ≡ or_before (limit_in word) pair }
{
    match pair {
        None => word,
        Some(given) => limit_word(given),
    }
}

// A slot after a line for its device.
pub fn changed(x: Slot, pairs: Pairs) -> Slot
    requires { StorablePairs pairs }
    ensures { SlotChanged x pairs result }
{
    Slot {
        device: x.device,
        limits: PerKey::from_fn(|k| or_before(x.limits.get(k), pairs.get(k))),
    }
}
