// Four slots, packed and ascending. One pass over them, which carries a slot along, puts a device where it belongs; what it carries
// out is a fifth device.
ghost use Rattle.std.specs.Prelude.{◌*◌, ◌<◌, ◌≢◌, ◌≡◌};
ghost use Rattle.model.specs.Sizes.{device_numbers};
ghost use Rattle.std.specs.List.{position};
ghost use Rattle.devices.specs.LimitWords.{StorablePairs};
ghost use Rattle.devices.specs.Slots.{no_slots, stepped, put_in, without, is_of, slot_of, InOrder, Written, LineWritten};

use super::slot::{Slot, changed, free, is_all_max, unlimited};
use model::Pairs;
use std::mem;

// "A group holds four devices."
pub const MOST_DEVICES: usize = 4;

pub type Slots = [Slot; MOST_DEVICES];

// No device.
pub fn empty() -> Slots
    ensures { result ≡ no_slots }
{
    [free(); MOST_DEVICES]
}

// One place of the pass, and what it carries on: the lower device stays; the device that comes takes the place of itself.
fn place(here: &mut Slot, coming: Slot) -> Slot
    ensures { (here.new, result) ≡ stepped here.old coming }
{
    if coming.device == 0 || here.device != 0 && here.device < coming.device {
        return coming;
    }
    let was = mem::replace(here, coming);
    if was.device == coming.device {
        free()
    } else {
        was
    }
}

// A device put into the table, unless it were a fifth.
fn with_slot(mut s: Slots, x: Slot) -> Option<Slots>
    ensures { result ≡ put_in x s }
{
    let mut carried = x;
    for here in &mut s {
        carried = place(here, carried);
    }
    if carried.device == 0 { Some(s) } else { None }
}

// Where the slot of a device stands.
fn place_of(s: &Slots, device: u64) -> Option<usize>
    ensures { result ≡ position (is_of device) s.now }
{
    s.iter().position(|x| x.device == device)
}

// The table without a device. Each place apart: built, a rotation calls `memmove`, and the archive for C asks for no such function.
fn without_device(s: Slots, device: u64) -> Slots
    ensures { result ≡ without device s }
{
    let [a, b, c, d] = s;
    match place_of(&s, device) {
        Some(0) => [b, c, d, free()],
        Some(1) => [a, c, d, free()],
        Some(2) => [a, b, d, free()],
        Some(_) => [a, b, c, free()],
        None => s,
    }
}

// A device's slot written: it is put in its place, or goes where it is all "max". None where it were a fifth device.
fn write(s: Slots, x: Slot) -> Option<Slots>
    requires { InOrder s × (x.device ≢ 0) }
    ensures { Written s x result }
{
    if is_all_max(x) {
        return Some(without_device(s, x.device));
    }
    with_slot(s, x)
}

// The slot of a device, with no limits where the table does not have it. A pass from the end, so that the first such slot stands:
// built, a `find` keeps the table in memory a second time.
fn slot_of(s: &Slots, device: u64) -> Slot
    ensures { result ≡ slot_of device s.now }
{
    let mut found = unlimited(device);
    for k in (0..MOST_DEVICES).rev() {
        if s[k].device == device {
            found = s[k];
        }
    }
    found
}

// The table after a line for a device, or none where it has a fifth.
pub fn after_line(s: Slots, device: u64, pairs: Pairs) -> Option<Slots>
    requires { InOrder s × ((device < device_numbers * device_numbers) × StorablePairs pairs) }
    ensures { LineWritten s device pairs result }
{
    let old = slot_of(&s, device + 1);
    write(s, changed(old, pairs))
}
