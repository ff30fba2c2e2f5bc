// What charge and fork answer.
use shootspiral::number::NO_GROUP;
use std::fmt;

// The number, the first group without room if there is one, and the groups consulted.
#[derive(Clone, Copy)]
pub(crate) struct Room {
    number: u32,
    without_room: Option<u64>,
    consulted: u64,
}

impl Room {
    // The C interface tells a group's number, or one that stands for none.
    pub(crate) fn new(number: u32, [group, consulted]: [u64; 2]) -> Room {
        let without_room = (group != NO_GROUP).then_some(group);
        Room {
            number,
            without_room,
            consulted,
        }
    }
}

impl fmt::Display for Room {
    fn fmt<W: fmt::Write>(&self, f: &mut fmt::Formatter<W>) -> fmt::Result {
        let Room {
            number,
            without_room,
            consulted,
        } = *self;
        match without_room {
            Some(group) => write!(f, "{number}, group {group}, consulted {consulted}"),
            None => write!(f, "{number}, consulted {consulted}"),
        }
    }
}
