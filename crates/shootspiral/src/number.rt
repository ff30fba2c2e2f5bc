// Answers as document 01's numbers.
ghost use Rattle.std.specs.Prelude.{◌≡◌};
ghost use Rattle.model.specs.Checks.{errno_number, answer_number};
ghost use Rattle.model.specs.Rooms.{shortage};
ghost use Rattle.model.specs.Replies.{room_number, room_group, room_count, read_length};
ghost use Rattle.shootspiral.specs.Interface.{group_word};

use model::{Denied, Errno, Resource};

// Told where no group is named.
pub const NO_GROUP: u64 = u64::MAX;

// 0 for success, whatever it tells beside.
pub fn answer_number<T: Drop>(a: Result<T, Errno>) -> u32
    ensures { result ≡ answer_number a }
{
    match a {
        Ok(_) => 0,
        Err(e) => e as u32,
    }
}

// The number of a group without room, by what it has no room for.
fn shortage_number(resource: Resource) -> u32
    ensures { result ≡ errno_number (shortage resource) }
{
    match resource {
        Resource::Pages => Errno::Enomem as u32,
        Resource::Processes => Errno::Eagain as u32,
    }
}

pub fn room_number(resource: Resource, a: Result<u64, Denied>) -> u32
    ensures { result ≡ room_number resource a }
{
    match a {
        Ok(_) => 0,
        Err(Denied::NoRoom(_)) => shortage_number(resource),
        Err(Denied::Refused(e)) => e as u32,
    }
}

pub fn room_group(a: Result<u64, Denied>) -> u64
    ensures { result ≡ group_word (room_group a) }
{
    match a {
        Err(Denied::NoRoom(n)) => n.group.0,
        _ => NO_GROUP,
    }
}

pub fn room_count(a: Result<u64, Denied>) -> u64
    ensures { result ≡ room_count a }
{
    match a {
        Ok(consulted) => consulted,
        Err(Denied::NoRoom(n)) => n.consulted,
        Err(Denied::Refused(_)) => 0,
    }
}

// The length of the text that was delivered.
pub fn read_length(a: Result<usize, Errno>) -> u64
    ensures { result ≡ read_length a }
{
    match a {
        Ok(n) => n as u64,
        Err(_) => 0,
    }
}
