// The registry in force, found in a table: entries stand back to back, so their ends lead from each to the next.
#![tactic(auto)]

ghost use Rattle.std.specs.Prelude.{◌≡◌, ◌+◌, ◌≤◌, ◌<◌};
ghost use Rattle.rows.specs.Table.{lent, limit};
ghost use Rattle.registry.specs.Inner.{walk, Below, first_in, Based, base_of};

// The row of entry n, n ends on from the first entry's; every row on the way stands before row.
pub fn entry_row(table: &[u32], first: usize, n: usize, row: usize) -> usize
    requires { (row ≤ lent table.now) × Below table.now first n row }
    ensures { result ≡ walk table.now first n }
{
    let mut at = first;
    for _ in 0..n {
        at = rows::number(rows::end_at(table, at));
    }
    at
}

// The row of entry n, in one step where each entry has one row.
pub fn entry_in(table: &[u32], base: usize, n: usize, row: usize) -> usize
    requires { (row ≤ lent table.now) × (n < 4294967296) × Below table.now (first_in base) n row × Based table.now base (n + 1) }
    ensures { result ≡ walk table.now (first_in base) n }
{
    if base < 4294967296 {
        return entry_row(table, base, n, row);
    }
    base - 4294967296 + n
}

// The base of `count` entries that stand from row `first` to row `end`.
pub fn base_of(first: usize, end: usize, count: usize) -> usize
    requires { (first ≤ limit) × (first ≤ end) }
    ensures { result ≡ base_of first end count }
{
    if end - first == count {
        return first + 4294967296;
    }
    first
}
