ghost use Rattle.variable.specs.Answer.{no_room_number, no_room_beside, no_room-small};

use numbers::{Beside, Numbered};

// 13: the output is too small, and this many bytes are needed.
#[derive(Clone, Copy, Debug, PartialEq, Eq)]
pub struct NoRoom {
    pub needed: usize,
}

impl Numbered for NoRoom {
    ghost number_of = { no_room_number };

    ghost small = { no_room-small };

    fn number(self) -> u32 {
        13
    }
}

impl Beside for NoRoom {
    ghost beside_of = { no_room_beside };

    fn beside(self) -> usize {
        self.needed
    }
}
