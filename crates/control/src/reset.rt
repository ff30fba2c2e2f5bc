// The settings of controllers that leave a group's set, back at their defaults in each live child.
ghost use Rattle.model.specs.Effects.{controlled};
ghost use Rattle.tree.specs.Layout.{view};
ghost use Rattle.tree.specs.Changes.{GroupRow, Wrote};
ghost use Rattle.model.specs.Control.{at_controller};
ghost use Rattle.control.specs.Stores.{changed_at, cpu_reset, io_reset, limit_reset, Ranged, child_reset, children_reset};

use super::flags::is_any;
use devices::table::empty;
use model::{GroupId, Limit, PerController, Resource};
use tree::device::set_slots;
use tree::group::set_controls;
use tree::layout::{GROUPS, Tree};
use tree::rule::is_child;
use tree::setting::{DEFAULT_PERIOD, DEFAULT_WEIGHT, set_cpu, set_limit};

// cpu.weight and cpu.max of a group at their defaults, where cpu is gone.
fn reset_cpu(t: &mut Tree, k: GroupId, gone: bool)
    requires { GroupRow t.old k.0 }
    ensures { Wrote t.old t.new (changed_at (view t.old) k.0 (cpu_reset gone)) }
{
    if gone {
        set_cpu(t, k, DEFAULT_WEIGHT, Limit::NoLimit, DEFAULT_PERIOD);
    }
}

// No device in io.max of a group, where io is gone.
fn reset_io(t: &mut Tree, k: GroupId, gone: bool)
    requires { GroupRow t.old k.0 }
    ensures { Wrote t.old t.new (changed_at (view t.old) k.0 (io_reset gone)) }
{
    if gone {
        set_slots(t, k, empty());
    }
}

// No limit of a resource in a group, where its controller is gone.
fn reset_limit(t: &mut Tree, k: GroupId, r: Resource, gone: bool)
    requires { GroupRow t.old k.0 }
    ensures { Wrote t.old t.new (changed_at (view t.old) k.0 (limit_reset r gone)) }
{
    if gone {
        set_limit(t, k, r, Limit::NoLimit);
    }
}

// The settings of the controllers that are gone, in group k if it is a live child of g.
fn reset_child(t: &mut Tree, g: GroupId, k: GroupId, gone: PerController<bool>)
    requires { GroupRow t.old k.0 }
    ensures { Wrote t.old t.new (child_reset (view t.old) g.0 (at_controller gone) k.0) }
{
    if !is_child(t, g, k) {
        return;
    }
    reset_cpu(t, k, gone.cpu);
    reset_io(t, k, gone.io);
    reset_limit(t, k, Resource::Pages, gone.memory);
    reset_limit(t, k, Resource::Processes, gone.pids);
}

// The same in every live child of g.
fn reset_children(t: &mut Tree, g: GroupId, gone: PerController<bool>)
    requires { Ranged t.old }
    ensures { Wrote t.old t.new (children_reset (view t.old) g.0 (at_controller gone)) }
{
    for k in 0..GROUPS {
        reset_child(t, g, GroupId(k), gone);
    }
}

// The set of g, and the settings of the controllers that are gone from it. No pass over the groups where none is gone.
pub fn set_and_reset(t: &mut Tree, g: GroupId, set: PerController<bool>, gone: PerController<bool>)
    requires { Ranged t.old × GroupRow t.old g.0 }
    ensures { Wrote t.old t.new (controlled (view t.old) g.0 (at_controller set) (at_controller gone)) }
{
    set_controls(t, g, set);
    if is_any(gone) {
        reset_children(t, g, gone);
    }
}
