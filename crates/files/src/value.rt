// The files that are one value, and the settings, io.max by `device`: whether a group is populated, the counts. No pass over the tree:
// what is counted stands in the group's row.
ghost use Rattle.std.specs.Prelude.{◌+◌, ◌≤◌, ◌++◌, ◌≡◌, length};
ghost use Rattle.model.specs.Text.{ended};
ghost use Rattle.model.specs.Settings.{limit_text, value_text};
ghost use Rattle.model.specs.declared.File.{File};
ghost use Rattle.model.specs.declared.SettingValue.{SettingValue};
ghost use Rattle.files.specs.Texts.{file_contents, Ready};

use super::device::put_devices;
use super::list::put_line;
use lines::amount::{shown_limit, to_figure};
use model::{GroupId, Limit, Resource, Setting};
use text::write::Text;
use tree::counter::count;
use tree::layout::Tree;
use tree::setting::{limit, period, quota, weight};
use tree::sum::Counter;

// Whether a live process is inside the group.
#[tactic(auto, unfolding(crate::specs::Texts::file_contents, model::specs::Files::contents))]
pub fn put_events<const N: usize>(t: &Tree, g: GroupId, out: &mut Text<N>)
    requires { Ready t.now g.0 File.Events N }
    ensures { out.new ≡ file_contents t.now g.0 File.Events }
{
    out.clear();
    if count(t, g, Counter::Of(Resource::Processes)) == 0 {
        out.push_bytes(b"populated 0\n");
    } else {
        out.push_bytes(b"populated 1\n");
    }
}

// What stands inside the group.
#[tactic(auto, unfolding(crate::specs::Texts::file_contents, model::specs::Files::contents))]
pub fn put_current<const N: usize>(t: &Tree, g: GroupId, r: Resource, out: &mut Text<N>)
    requires { Ready t.now g.0 (File.Current r) N }
    ensures { out.new ≡ file_contents t.now g.0 (File.Current r) }
{
    out.clear();
    put_line(to_figure(r, count(t, g, Counter::Of(r))), out);
}

// Both words of cpu.max, one space between.
#[tactic(auto, unfolding(model::specs::Settings::value_text))]
fn put_bandwidth<const N: usize>(quota: Limit, period: u64, out: &mut Text<N>)
    requires { length out.old + length (ended (value_text (SettingValue.Bandwidth quota period))) ≤ N }
    ensures { out.new ≡ out.old ++ ended (value_text (SettingValue.Bandwidth quota period)) }
{
    out.push_limit(quota);
    out.push(b' ');
    put_line(period, out);
}

// A limit and a newline.
fn put_limit_line<const N: usize>(limit: Limit, out: &mut Text<N>)
    requires { length out.old + length (ended (limit_text limit)) ≤ N }
    ensures { out.new ≡ out.old ++ ended (limit_text limit) }
{
    out.push_limit(limit);
    out.push(b'\n');
}

// The whole text of a settings file.
#[tactic(auto, unfolding(crate::specs::Texts::file_contents, model::specs::Files::contents, model::specs::Settings::shown, model::specs::Settings::value_text, model::specs::Text::joined))]
pub fn put_setting<const N: usize>(t: &Tree, g: GroupId, s: Setting, out: &mut Text<N>)
    requires { Ready t.now g.0 (File.Value s) N }
    ensures { out.new ≡ file_contents t.now g.0 (File.Value s) }
{
    out.clear();
    match s {
        Setting::CpuWeight => put_line(weight(t, g), out),
        Setting::CpuMax => put_bandwidth(quota(t, g), period(t, g), out),
        Setting::IoMax => put_devices(t, g, out),
        Setting::Max(r) => put_limit_line(shown_limit(r, limit(t, g, r)), out),
    }
}
