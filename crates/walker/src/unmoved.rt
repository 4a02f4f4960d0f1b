ghost use Rattle.std.specs.Prelude.{◌≡◌};
ghost use Rattle.walker.specs.declared.unmoved.Unmoved.TheVariants as unmoved;
ghost use Rattle.walker.specs.Unmoved.{unmoved_number, unmoved-small};

use numbers::Numbered;
use rows::BadTable;

// Why a step leads nowhere.
#[derive(Clone, Copy, Debug, PartialEq, Eq)]
pub enum Unmoved {
    // 14: nothing that way.
    NoStep,
    // 12: the standing is forged, or the table is bad.
    BadTable,
}

impl Numbered for Unmoved {
    ghost number_of = { unmoved_number };

    ghost small = { unmoved-small };

    fn number(self) -> u32 {
        match self {
            Unmoved::NoStep => 14,
            Unmoved::BadTable => 12,
        }
    }
}

impl From<BadTable> for Unmoved {
    ghost from_gives = { λ _ why. why ≡ unmoved.BadTable };

    fn from(_why: BadTable) -> Unmoved {
        Unmoved::BadTable
    }
}
