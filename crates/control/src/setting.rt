// Writes to a setting: cpu.weight, cpu.max, io.max, memory.max, pids.max. Its file belongs to the group's parent.
ghost use Rattle.model.specs.Text.{line_words};
ghost use Rattle.model.specs.Settings.{value_of};
ghost use Rattle.model.specs.Checks.{first};
ghost use Rattle.model.specs.Calls.{write_setting};
ghost use Rattle.tree.specs.Kept.{Kept};
ghost use Rattle.tree.specs.Calling.{Called};
ghost use Rattle.control.specs.Values.{Settable, Stored, value_checks, Gives, Vetted};

use devices::table::after_line;
use lines::amount::{device_of, stored_limit};
use lines::name::setting_named;
use lines::range::is_in_range;
use lines::value::parse_value;
use model::{Errno, GroupId, Pairs, Setting, SettingValue};
use text::line::is_too_long;
use tree::device::{set_slots, slots};
use tree::group::{is_live, parent};
use tree::layout::{GROUPS, Tree};
use tree::rule::{is_on, may_write};
use tree::setting::{period, quota, set_cpu, set_limit, setting_controller, weight};

// 22 too long, or malformed; 34 a figure outside its range.
#[tactic(auto, using(std::proofs::lemmas::Bool::Decides::nat_tests), unfolding(model::specs::Checks::first, crate::specs::Values::value_checks))]
fn vet_value(setting: Setting, line: &[u8]) -> Result<SettingValue, Errno>
    ensures { Gives (first (value_checks setting line.now)) (value_of setting (line_words line.now)) result }
{
    if is_too_long(line) {
        return Err(Errno::Einval);
    }
    let value = parse_value(setting, line).ok_or(Errno::Einval)?;
    if !is_in_range(value) {
        return Err(Errno::Erange);
    }
    Ok(value)
}

// 22 the group's number out of range; 2 not live, no such setting, or its controller not on; 13 the user may not write the parent;
// then what the line's value is refused with.
#[tactic(auto, using(std::proofs::lemmas::Bool::Decides::nat_tests), unfolding(model::specs::Checks::first, model::specs::Calls::setting_checks))]
fn vet_setting(
    tree: &Tree,
    user: u32,
    group: GroupId,
    file: &[u8],
    line: &[u8],
) -> Result<SettingValue, Errno>
    requires { Kept tree.now }
    ensures { Vetted tree.now user group.0 file.now line.now result }
{
    // a flat run of checks, as the paper lists them: a function for the first two is no plainer, and a step more to prove
    if GROUPS <= group.0 {
        return Err(Errno::Einval);
    }
    if !is_live(tree, group) {
        return Err(Errno::Enoent);
    }
    let setting = setting_named(file).ok_or(Errno::Enoent)?;
    if !is_on(tree, setting_controller(setting), group) {
        return Err(Errno::Enoent);
    }
    if !may_write(tree, user, parent(tree, group)) {
        return Err(Errno::Eacces);
    }
    vet_value(setting, line)
}

// A line for a device in the group; 28 where it were a device too many.
fn store_device(t: &mut Tree, g: GroupId, major: u64, minor: u64, pairs: Pairs) -> Result<(), Errno>
    requires { Settable t.old g.0 (SettingValue.Device major minor pairs) }
    ensures { Stored t.old t.new g.0 (SettingValue.Device major minor pairs) result }
{
    let after = after_line(slots(t, g), device_of(major, minor), pairs).ok_or(Errno::Enospc)?;
    set_slots(t, g, after);
    Ok(())
}

// The value in the group; 28 where it were a device too many. One word of cpu.max leaves the period.
fn store(t: &mut Tree, g: GroupId, value: SettingValue) -> Result<(), Errno>
    requires { Settable t.old g.0 value }
    ensures { Stored t.old t.new g.0 value result }
{
    match value {
        SettingValue::Weight(n) => set_cpu(t, g, n, quota(t, g), period(t, g)),
        SettingValue::Quota(q) => set_cpu(t, g, weight(t, g), q, period(t, g)),
        SettingValue::Bandwidth(q, p) => set_cpu(t, g, weight(t, g), q, p),
        SettingValue::Device(major, minor, pairs) => store_device(t, g, major, minor, pairs)?,
        SettingValue::Maximum(r, l) => set_limit(t, g, r, stored_limit(r, l)),
    }
    Ok(())
}

// What the checks before the last refuse; then 28, a device too many. "A limit below present usage is accepted."
pub fn write_setting(
    tree: &mut Tree,
    user: u32,
    group: GroupId,
    file: &[u8],
    line: &[u8],
) -> Result<(), Errno>
    requires { Kept tree.old }
    ensures { Called tree.old tree.new
        (write_setting user group.0 file.now line.now) result }
{
    let value = vet_setting(tree, user, group, file, line)?;
    store(tree, group, value)
}
