// The bytes of rows: row sizing calls children sizing, which calls row sizing again, the rows that remain falling at each round.
ghost use Rattle.std.specs.Prelude.{◌+◌, ◌<◌};
ghost use Rattle.rows.specs.Table.{row_at};
ghost use Rattle.writer.specs.Inner.{Spelt, Long, Told};

use rows::Row;

// How many bytes a row spells with its children: its own, among which a foreign document has the length of theirs, and theirs. For a row with
// no child, as most are, no call is made.
#[cycle(sizing)]
fn size_row(table: &[u32], row: usize) -> usize
    requires { Spelt table.now row (row_at table.now row).end × (row < (row_at table.now row).end) }
    ensures { Long table.now row (row_at table.now row).end result }
{
    let w = rows::row_at(table, row);
    let end = rows::number(w.end);
    let first = row + 1;
    if first == end {
        return spell::row_size(w, 0);
    }
    let body = size_children(table, first, end);
    spell::row_size(w, body) + body
}

// How many bytes the rows from `row` to `stop` spell, child after child.
#[cycle(sizing)]
pub fn size_children(table: &[u32], row: usize, stop: usize) -> usize
    requires { Spelt table.now row stop }
    ensures { Long table.now row stop result }
{
    let mut here = row;
    let mut sum = 0;
    // Not a range: the next row is where this one ends.
    while here < stop {
        sum += size_row(table, here);
        here = rows::number(rows::end_at(table, here));
    }
    sum
}

// What the own bytes of the row w, which is number `row`, tell of its children: a foreign document has the length of its body before it.
pub fn told_size(table: &[u32], row: usize, w: Row) -> usize
    requires { Spelt table.now (row + 1) w.end }
    ensures { Told table.now row w result }
{
    if w.kind == Row::FOREIGN {
        return size_children(table, row + 1, rows::number(w.end));
    }
    0
}
