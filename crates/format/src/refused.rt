ghost use Rattle.std.specs.Prelude.{◌≡◌};
ghost use Rattle.format.specs.Head.{refused};

use crate::refusal::Refusal;

// Why a position is refused, and its place.
#[derive(Clone, Copy, Debug, PartialEq, Eq)]
pub struct Refused {
    pub why: Refusal,
    pub place: usize,
}

impl Refusal {
    // Of the position at `place`.
    pub fn at(self, place: usize) -> Refused
        ensures { result ≡ refused self place }
    {
        Refused { why: self, place }
    }
}
