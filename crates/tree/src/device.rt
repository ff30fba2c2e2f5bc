// The slots of io.max in a group's row, all four at once.
// A number in range is asked for in the clause, and has no type of its own, as in `group`.
ghost use Rattle.std.specs.Prelude.{◌≡◌, ◌+◌, ◌≤◌, ◌<◌};
ghost use Rattle.model.specs.Sizes.{groups};
ghost use Rattle.devices.specs.Slots.{table_of, Packed};
ghost use Rattle.tree.specs.Layout.{row_words, slot_words, word, slot_in, view};
ghost use Rattle.tree.specs.Changes.{GroupRow, SlotPut, Slotted, Wrote, io_set};

use super::layout::Tree;
use super::row::{FIRST_SLOT, SLOT, set_word, word};
use devices::slot::Slot;
use devices::table::{Slots, empty};
use model::{GroupId, PerKey};

// The slot at a place of the row.
fn slot(t: &Tree, g: GroupId, place: usize) -> Slot
    requires { (g.0 < groups) × (place + slot_words ≤ row_words) }
    ensures { result ≡ slot_in (word t.now g.0) place }
{
    Slot {
        device: word(t, g, place),
        limits: PerKey::from_fn(|k| word(t, g, place + 1 + k as usize)),
    }
}

pub fn slots(t: &Tree, g: GroupId) -> Slots
    requires { g.0 < groups }
    ensures { Slotted t.now g.0 result }
{
    let mut s = empty();
    for (i, x) in s.iter_mut().enumerate() {
        *x = slot(t, g, FIRST_SLOT + i * SLOT);
    }
    s
}

fn set_slot(t: &mut Tree, g: GroupId, place: usize, x: Slot)
    requires { GroupRow t.old g.0 × (place + slot_words ≤ row_words) }
    ensures { SlotPut t.old t.new g.0 place x }
{
    set_word(t, g, place, x.device);
    set_word(t, g, place + 1, x.limits.rbps);
    set_word(t, g, place + 2, x.limits.wbps);
    set_word(t, g, place + 3, x.limits.riops);
    set_word(t, g, place + 4, x.limits.wiops);
}

pub fn set_slots(t: &mut Tree, g: GroupId, s: Slots)
    requires { GroupRow t.old g.0 × Packed s }
    ensures { Wrote t.old t.new (io_set (view t.old) g.0 (table_of s)) }
{
    for (i, &x) in s.iter().enumerate() {
        set_slot(t, g, FIRST_SLOT + i * SLOT, x);
    }
}
