ghost use Rattle.rows.specs.BadTable.{bad_table_number, bad_table_beside, bad_table-small};

use numbers::{Beside, Numbered};

// 12: the table is bad: a row rule is broken, or a standing on it is forged.
#[derive(Clone, Copy, Debug, PartialEq, Eq)]
pub struct BadTable;

impl Numbered for BadTable {
    ghost number_of = { bad_table_number };

    ghost small = { bad_table-small };

    fn number(self) -> u32 {
        12
    }
}

impl Beside for BadTable {
    ghost beside_of = { bad_table_beside };

    fn beside(self) -> usize {
        0
    }
}
