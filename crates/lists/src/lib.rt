// Lent lists of numbers. The laws on them stand in proofs/: a run of numbers laid over a list, and zeros behind a place.
#![tactic(auto)]

ghost use Rattle.std.specs.Prelude.{◌≡◌};
ghost use Rattle.lists.specs.Zeroed.{zeroed};

// from may lie behind the end: then nothing changes.
pub fn zero_from(table: &mut [u32], from: usize)
    ensures { table.new ≡ zeroed from table.old }
{
    if from < table.len() {
        table[from..].fill(0);
    }
}
