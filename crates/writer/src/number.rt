// The paper's numbers for a refusal.
ghost use Rattle.writer.specs.Unwritten.{unwritten_number, unwritten_beside, unwritten-small};

use crate::unwritten::Unwritten;
use numbers::{Beside, Numbered};

impl Numbered for Unwritten {
    ghost number_of = { unwritten_number };

    ghost small = { unwritten-small };

    fn number(self) -> u32 {
        match self {
            Unwritten::BadTable => 12,
            Unwritten::TooLarge { needed: _ } => 1,
            Unwritten::NoRoom { needed: _ } => 13,
        }
    }
}

impl Beside for Unwritten {
    ghost beside_of = { unwritten_beside };

    // The bytes needed.
    fn beside(self) -> usize {
        match self {
            Unwritten::BadTable => 0,
            Unwritten::TooLarge { needed } | Unwritten::NoRoom { needed } => needed,
        }
    }
}
