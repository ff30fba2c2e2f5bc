// The text of io.max: a line for each device.
ghost use Rattle.std.specs.Prelude.{◌+◌, ◌≤◌, ◌∷◌, ◌++◌, ◌≢◌, ◌≡◌, length};
ghost use Rattle.model.specs.Text.{space};
ghost use Rattle.model.specs.DeviceLines.{device_text, pair_text};
ghost use Rattle.model.specs.declared.File.{File};
ghost use Rattle.model.specs.declared.Setting.{Setting};
ghost use Rattle.devices.specs.LimitWords.{limit_in};
ghost use Rattle.files.specs.Texts.{limits_text, slot_text, file_contents, Ready};

use devices::limit::limit_in;
use devices::slot::Slot;
use lines::amount::{major_of, minor_of};
use lines::name::Named;
use model::{GroupId, Key};
use text::write::Text;
use tree::device::slots;
use tree::layout::Tree;

// A device by its two numbers.
fn put_device<const N: usize>(major: u64, minor: u64, out: &mut Text<N>)
    requires { length out.old + length (device_text major minor) ≤ N }
    ensures { out.new ≡ out.old ++ device_text major minor }
{
    out.push_number(major);
    out.push(b':');
    out.push_number(minor);
}

// A key after a space, and the limit that its word says.
fn put_pair<const N: usize>(key: Key, word: u64, out: &mut Text<N>)
    requires { length out.old + length (pair_text key (limit_in word)) + 1 ≤ N }
    ensures { out.new ≡ out.old ++ (space ∷ pair_text key (limit_in word)) }
{
    out.push(b' ');
    out.push_bytes(key.name());
    out.push(b'=');
    out.push_limit(limit_in(word));
}

// The limits of all four keys.
fn put_limits<const N: usize>(x: Slot, out: &mut Text<N>)
    requires { length out.old + length (limits_text x) ≤ N }
    ensures { out.new ≡ out.old ++ limits_text x }
{
    put_pair(Key::Rbps, x.limits.rbps, out);
    put_pair(Key::Wbps, x.limits.wbps, out);
    put_pair(Key::Riops, x.limits.riops, out);
    put_pair(Key::Wiops, x.limits.wiops, out);
}

// The line of a slot in use.
#[tactic(auto, unfolding(model::specs::Settings::value_text, model::specs::Text::spaced, model::specs::DeviceLines::pair_texts))]
fn put_slot<const N: usize>(x: Slot, out: &mut Text<N>)
    requires { (x.device ≢ 0) × (length out.old + length (slot_text x) ≤ N) }
    ensures { out.new ≡ out.old ++ slot_text x }
{
    let device = x.device - 1;
    put_device(major_of(device), minor_of(device), out);
    put_limits(x, out);
    out.push(b'\n');
}

// The whole text of io.max. The slots in use are the first.
pub fn put_devices<const N: usize>(t: &Tree, g: GroupId, out: &mut Text<N>)
    requires { Ready t.now g.0 (File.Value Setting.IoMax) N }
    ensures { out.new ≡ file_contents t.now g.0 (File.Value Setting.IoMax) }
{
    out.clear();
    let s = slots(t, g);
    for x in s {
        if x.device == 0 {
            return;
        }
        put_slot(x, out);
    }
}
