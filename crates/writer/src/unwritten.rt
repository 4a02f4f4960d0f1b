ghost use Rattle.std.specs.Prelude.{◌≡◌};
ghost use Rattle.writer.specs.declared.unwritten.Unwritten.TheVariants.{BadTable};

use rows::BadTable;

// Why a table is not written. The bytes needed may pass 32 bits.
#[derive(Clone, Copy, Debug, PartialEq, Eq)]
pub enum Unwritten {
    // 12: a row rule is broken.
    BadTable,
    // 1: the document would pass the size limit.
    TooLarge { needed: usize },
    // 13: the output has not that room.
    NoRoom { needed: usize },
}

impl From<BadTable> for Unwritten {
    ghost from_gives = { λ _ why. why ≡ BadTable };

    fn from(_why: BadTable) -> Unwritten {
        Unwritten::BadTable
    }
}
