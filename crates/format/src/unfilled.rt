ghost use Rattle.format.specs.Answer.{unfilled_number, unfilled_beside, unfilled-small};

use crate::refusal::Refusal;
use numbers::{Beside, Numbered};

// Why reading a document fills no rows.
#[derive(Clone, Copy, Debug, PartialEq, Eq)]
pub enum Unfilled {
    // 1: more bytes than the limit.
    TooLong,
    // 2 to 10: what is wrong, and its place.
    Refused { why: Refusal, place: usize },
    // 11: the document is right and needs this many rows.
    Full { needed: usize },
}

impl Numbered for Unfilled {
    ghost number_of = { unfilled_number };

    ghost small = { unfilled-small };

    fn number(self) -> u32 {
        match self {
            Unfilled::TooLong => 1,
            Unfilled::Refused { why, place: _ } => why.number(),
            Unfilled::Full { needed: _ } => 11,
        }
    }
}

// A place, or the rows needed.
impl Beside for Unfilled {
    ghost beside_of = { unfilled_beside };

    fn beside(self) -> usize {
        match self {
            Unfilled::TooLong => 0,
            Unfilled::Refused { why: _, place } => place,
            Unfilled::Full { needed } => needed,
        }
    }
}
