// Leaves whose first bytes tell all of them: each is laid with no head between, for speed alone. What stands here is known to be no refusal, so
// no text and no room is asked again; a length is read once more. Every answer is the place behind the leaf.
ghost use Rattle.std.specs.Prelude.{◌+◌, ◌≤◌, ◌<◌, ◌≡◌, length};
ghost use Rattle.wide.specs.Members.{key_length};
ghost use Rattle.rows.specs.Table.{lent, limit};
ghost use Rattle.format.specs.Head.{count_at, integer_head, head_at};
ghost use Rattle.leaves.specs.Inner.{Known, SpanBehind, LeafLaid, LeafTried};

use crate::leaf::{integer_kind, integer_row};
use rows::Row;
use wide::size::size_at;

// An integer with a body.
fn lay_integer(
    table: &mut [u32],
    s: &[u8],
    at: usize,
    stop: usize,
    rank: usize,
    signed: bool,
    row: usize,
) -> usize
    requires known { Known (integer_head at stop rank signed) }
    requires at_lt_stop { (at < stop) × (stop ≤ length s.now) × (length s.now ≤ limit) × (rank < 8) }
    requires row_bound { (row < lent table.old) × (row < limit) }
    ensures { LeafLaid (integer_head at stop rank signed) s.now table.old row table.new result }
{
    let place = at + 1;
    let size = size_at(rank);
    let w = wide::body::read_body(s, place, size, signed);
    let kind = integer_kind(w, signed);
    rows::lay(table, row, integer_row(kind, row, w));
    place + size
}

// A text or a binary, by its kind, whose length stands behind the marker.
fn lay_long(table: &mut [u32], s: &[u8], at: usize, stop: usize, kind: u32, row: usize) -> usize
    requires behind { SpanBehind (count_at key_length s.now (at + 1) stop) kind (head_at s.now at stop) }
    requires at_lt_stop { (at < stop) × (stop ≤ length s.now) × (length s.now ≤ limit) }
    requires row_bound { (row < lent table.old) × (row < limit) }
    ensures { LeafLaid (head_at s.now at stop) s.now table.old row table.new result }
{
    let c = heads::length_at(s, at + 1, stop).unwrap();
    rows::lay(table, row, Row::span(kind, row, c.next, c.value));
    c.next + c.value
}

// The leaf at `at`; or none where it is of another form or no leaf stands there, and nothing is laid.
pub fn lay_plain(table: &mut [u32], s: &[u8], at: usize, stop: usize, row: usize) -> Option<usize>
    requires known { Known (head_at s.now at stop) }
    requires at_lt_stop { (at < stop) × (stop ≤ length s.now) × (length s.now ≤ limit) }
    requires row_bound { (row < lent table.old) × (row < limit) }
    ensures { LeafTried (head_at s.now at stop) s.now table.old row table.new result }
{
    let marker = s[at];
    let b = heads::index(marker);
    if b < 32 {
        if b < 16 {
            if b == 12 {
                return Some(lay_long(table, s, at, stop, Row::BINARY, row));
            }
            if b == 8 {
                return Some(lay_long(table, s, at, stop, Row::TEXT, row));
            }
            if b < 3 {
                rows::lay(table, row, Row::leaf((b + 1) as u32, row, 0, 0, 0, 0));
                return Some(at + 1);
            }
            return None;
        }
        if b < 24 {
            return Some(lay_integer(table, s, at, stop, b - 16, true, row));
        }
        return Some(lay_integer(table, s, at, stop, b - 24, false, row));
    }
    if b < 128 {
        let w = wide::integer::small(marker);
        rows::lay(table, row, integer_row(Row::SMALL, row, w));
        return Some(at + 1);
    }
    if b < 160 {
        let place = at + 1;
        let size = b - 127;
        rows::lay(table, row, Row::text(row, place, size));
        return Some(place + size);
    }
    None
}
