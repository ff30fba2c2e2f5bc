// Figures of a resource's files and amounts of the resource, both ways: memory.max and memory.current are in bytes and
// the tree counts pages; pids.max and pids.current count processes as the tree does. A device is two numbers in io.max and one in
// the tree.
ghost use Rattle.std.specs.Prelude.{◌^◌, ◌<◌, true, ◌≡◌};
ghost use Rattle.model.specs.Sizes.{device_numbers};
ghost use Rattle.model.specs.Devices.{device_of, major_of, minor_of};
ghost use Rattle.model.specs.Settings.{figure_in, largest, to_pages, to_amount, to_figure, map_limit};

use super::range::DEVICE_NUMBERS;
use model::{Limit, Resource};

const PAGE_BYTES: u64 = 4096;

// The whole pages in so many bytes: odd ones are dropped.
fn to_pages(bytes: u64) -> u64
    ensures { result ≡ to_pages bytes }
{
    bytes / PAGE_BYTES
}

// A figure of the file as an amount.
fn to_amount(r: Resource, n: u64) -> u64
    ensures { result ≡ to_amount r n }
{
    match r {
        Resource::Pages => to_pages(n),
        Resource::Processes => n,
    }
}

// An amount as the files show it.
pub fn to_figure(r: Resource, n: u64) -> u64
    requires { to_figure r n < 2 ^ 64 }
    ensures { result ≡ to_figure r n }
{
    match r {
        Resource::Pages => n * PAGE_BYTES,
        Resource::Processes => n,
    }
}

// A limit of the file as the tree keeps it, and one of the tree as the file shows it. Not one function over the amount: the second
// asks that its product fits, the first asks nothing.
pub fn stored_limit(r: Resource, l: Limit) -> Limit
    ensures { result ≡ map_limit (to_amount r) l }
{
    match l {
        Limit::NoLimit => Limit::NoLimit,
        Limit::Figure(n) => Limit::Figure(to_amount(r, n)),
    }
}

pub fn shown_limit(r: Resource, l: Limit) -> Limit
    requires { figure_in 0 (largest r) (map_limit (to_figure r) l) ≡ true }
    ensures { result ≡ map_limit (to_figure r) l }
{
    match l {
        Limit::NoLimit => Limit::NoLimit,
        Limit::Figure(n) => Limit::Figure(to_figure(r, n)),
    }
}

// A device by its major and minor number.
pub fn device_of(major: u64, minor: u64) -> u64
    requires { (major < device_numbers) × (minor < device_numbers) }
    ensures { result ≡ device_of major minor }
{
    major * DEVICE_NUMBERS + minor
}

pub fn major_of(device: u64) -> u64
    ensures { result ≡ major_of device }
{
    device / DEVICE_NUMBERS
}

pub fn minor_of(device: u64) -> u64
    ensures { result ≡ minor_of device }
{
    device % DEVICE_NUMBERS
}
