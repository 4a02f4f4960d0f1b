ghost use Rattle.format.specs.Answer.{unmeasured_number, unmeasured_beside, unmeasured-small};

use crate::refusal::Refusal;
use numbers::{Beside, Numbered};

// Why measuring a document answers no rows.
#[derive(Clone, Copy, Debug, PartialEq, Eq)]
pub enum Unmeasured {
    // 1: more bytes than the limit.
    TooLong,
    // 2 to 10: what is wrong, and its place.
    Refused { why: Refusal, place: usize },
}

impl Numbered for Unmeasured {
    ghost number_of = { unmeasured_number };

    ghost small = { unmeasured-small };

    fn number(self) -> u32 {
        match self {
            Unmeasured::TooLong => 1,
            Unmeasured::Refused { why, place: _ } => why.number(),
        }
    }
}

// A place.
impl Beside for Unmeasured {
    ghost beside_of = { unmeasured_beside };

    fn beside(self) -> usize {
        match self {
            Unmeasured::TooLong => 0,
            Unmeasured::Refused { why: _, place } => place,
        }
    }
}
