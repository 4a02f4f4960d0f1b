// Rows that have no child.
ghost use Rattle.std.specs.Prelude.{◌≡◌, ◌+◌, ◌≤◌, ◌<◌, length};
ghost use Rattle.rows.specs.Table.{own_of, lent, limit};
ghost use Rattle.registry.specs.Inner.{chain, Below, first_in, Based};
ghost use Rattle.format.specs.Value.{in_foreign, value, whole};
ghost use Rattle.rules.specs.Grow.{key_row, grow_key, pointing, judged};
ghost use Rattle.checker.specs.Inner.{is_alone, stands_alone, extent_of, ending_at, verdict_is};

use measure::told;
use rows::Row;
use rules::Shape;

// A row ends where what it holds does.
pub fn ends_at(end: u32, g: Option<usize>) -> Option<usize>
    ensures { result ≡ ending_at end g }
{
    g.filter(|next| *next == rows::number(end))
}

// A record's key, by its words.
fn key_row(s: &[u8], row: usize, w: Row) -> Option<usize>
    requires { row < limit }
    ensures { result ≡ extent_of (key_row s.now row w) }
{
    if w.kind == Row::KEY && rules::spelt(s, w) {
        return ends_at(w.end, Some(row + 1));
    }
    None
}

// A record's key, at `row`.
pub fn check_key(table: &[u32], n: usize, s: &[u8], row: usize) -> Option<usize>
    requires { (n ≤ lent table.now) × (n ≤ limit) }
    ensures { result ≡ extent_of (grow_key table.now n s.now row) }
{
    if row < n {
        return key_row(s, row, rows::row_at(table, row));
    }
    None
}

// Whether a row of that shape, with that end, has no child and ends behind itself.
fn is_alone(shape: Shape, row: usize, end: u32) -> bool
    requires { row < limit }
    ensures { result ≡ is_alone shape row end }
{
    matches!(shape, Shape::Leaf) && rows::number(end) == row + 1
}

// Whether such a row stands at `row`: nothing more is asked of it, so that no call of check_value is made for the rows that are met most. Its
// end is asked first: it tells a holder without a look at its words.
pub fn stands_alone(table: &[u32], n: usize, s: &[u8], row: usize) -> bool
    requires { (n ≤ lent table.now) × (n ≤ limit) }
    ensures { result ≡ stands_alone table.now n s.now row }
{
    if n <= row {
        return false;
    }
    let w = rows::row_at(table, row);
    rows::number(w.end) == row + 1 && is_alone(rules::shape_of(s, w), row, w.end)
}

// A reference: its entry is in force, and stands at the row that it says.
pub fn check_reference(
    table: &[u32],
    row: usize,
    base: usize,
    around: usize,
    w: Row,
) -> Option<usize>
    requires { (row ≤ lent table.now) × (row < limit) × Below table.now (first_in base) around row × Based table.now base around }
    ensures { result ≡ extent_of (pointing (chain table.now (first_in base) around) row (own_of w)) }
{
    let number = rows::number(w.w0);
    if around <= number {
        return None;
    }
    let entry = registry::entry_in(table, base, number, row);
    (rows::number(w.w1) == entry).then_some(row + 1)
}

// The verdict of a damaged body is the number that reading it gave.
fn verdict_is(row: usize, w: Row, number: u32) -> Option<usize>
    requires { row < limit }
    ensures { result ≡ verdict_is row w.w2 number }
{
    (w.w2 == number).then_some(row + 1)
}

// A damaged foreign body: its bytes are measured where they stand.
pub fn check_damaged(s: &[u8], row: usize, levels: usize, around: usize, w: Row) -> Option<usize>
    requires { (row < limit) × (w.w0 + w.w1 ≤ length s.now) × (length s.now ≤ limit) }
    ensures { result ≡ extent_of (judged row (own_of w) (whole (w.w0 + w.w1) (value levels s.now (in_foreign around) w.w0 (w.w0 + w.w1)))) }
{
    let place = rows::number(w.w0);
    let end = place + rows::number(w.w1);
    let inside = format::in_foreign(around);
    let f = measure::measure_whole(s, place, end, levels, inside);
    if told::WRONG <= f {
        return verdict_is(row, w, told::number_in(f));
    }
    None
}
