// Positions that take one row.
ghost use Rattle.std.specs.Prelude.{◌≡◌, false, ◌+◌, ◌≤◌, ◌<◌, length};
ghost use Rattle.rows.specs.Table.{lent, limit};
ghost use Rattle.format.specs.declared.head.Head.TheVariants.{Leaf, Refer};
ghost use Rattle.format.specs.Head.{head_at, key_at};
ghost use Rattle.format.specs.Value.{keyed, is_key, in_force, in_foreign, child, whole, framed, value};
ghost use Rattle.registry.specs.Inner.{first_in};
ghost use Rattle.laying.specs.Inner.{Right, Ready, Did, OneTried, KeyLaid, Damaged};

use format::{Children, Content};
use leaves::leaf_row;
use measure::told::place_and_row;
use rows::Row;

// A leaf whose bytes end at `next`.
pub fn lay_leaf(
    table: &mut [u32],
    s: &[u8],
    at: usize,
    stop: usize,
    levels: usize,
    row: usize,
    base: usize,
    around: usize,
    doubt: bool,
    content: Content,
    next: usize,
) -> usize
    requires ready { Ready (value levels s.now around at stop) doubt table.old row base around }
    requires next_value { (Ok (Leaf content next) ≡ head_at s.now at stop) × (stop ≤ length s.now) × (length s.now ≤ limit) }
    ensures { Did (value levels s.now around at stop) table.old row (first_in base) around table.new result }
{
    rows::lay(table, row, leaf_row(s, row, content));
    place_and_row(next, row + 1)
}

// A reference to entry `number`, whose bytes end at `next`.
pub fn lay_reference(
    table: &mut [u32],
    s: &[u8],
    at: usize,
    stop: usize,
    levels: usize,
    row: usize,
    base: usize,
    around: usize,
    doubt: bool,
    number: usize,
    next: usize,
) -> usize
    requires ready { Ready (value levels s.now around at stop) doubt table.old row base around }
    requires next_value { (Ok (Refer number next) ≡ head_at s.now at stop) × (stop ≤ length s.now) × (length s.now ≤ limit) }
    ensures { Did (value levels s.now around at stop) table.old row (first_in base) around table.new result }
{
    let entry = registry::entry_in(table, base, number, row);
    rows::lay(table, row, Row::reference(row, number, entry));
    place_and_row(next, row + 1)
}

// A damaged foreign body of `size` bytes at `place`.
pub fn lay_damaged(
    table: &mut [u32],
    s: &[u8],
    place: usize,
    size: usize,
    levels: usize,
    row: usize,
    base: usize,
    around: usize,
    doubt: bool,
    verdict: u32,
) -> usize
    requires ready { Ready (framed place size (whole (place + size) (value levels s.now (in_foreign around) place (place + size)))) doubt table.old row base around }
    requires damaged { Damaged (whole (place + size) (value levels s.now (in_foreign around) place (place + size))) verdict }
    requires size_in_bounds { (place + size ≤ length s.now) × (length s.now ≤ limit) }
    ensures { Did (framed place size (whole (place + size) (value levels s.now (in_foreign around) place (place + size)))) table.old row (first_in base) around table.new result }
{
    rows::lay(table, row, Row::damaged(row, place, size, verdict));
    place_and_row(place + size, row + 1)
}

// A record's key, whose text is not asked again: the place behind it.
fn lay_key(table: &mut [u32], s: &[u8], at: usize, stop: usize, row: usize) -> usize
    requires right { Right (keyed at (key_at s.now at stop)) }
    requires at_le_stop { (at ≤ stop) × (stop ≤ length s.now) × (length s.now ≤ limit) × (row < lent table.old) × (row < limit) }
    ensures { KeyLaid (key_at s.now at stop) table.old row table.new result }
{
    let c = heads::length_at(s, at, stop).unwrap();
    rows::lay(table, row, Row::key(row, c.next, c.value));
    c.next + c.value
}

// A reference whose marker tells its number: the place behind it; or none, and nothing is laid.
fn lay_marked(
    table: &mut [u32],
    s: &[u8],
    at: usize,
    stop: usize,
    levels: usize,
    row: usize,
    base: usize,
    around: usize,
    doubt: bool,
) -> Option<usize>
    requires ready { Ready (value levels s.now around at stop) doubt table.old row base around }
    requires at_lt_stop { (at < stop) × (stop ≤ length s.now) × (length s.now ≤ limit) }
    ensures { OneTried (value levels s.now around at stop) false table.old row (first_in base) around table.new result }
{
    let b = heads::index(s[at]);
    if b < 193 {
        return None;
    }
    if b == 255 {
        return None;
    }
    let number = b - 193;
    let next = at + 1;
    lay_reference(
        table, s, at, stop, levels, row, base, around, doubt, number, next,
    );
    Some(next)
}

// Child number i of a holder, where it is a key, or a leaf or a reference that its first bytes tell: the place behind it; or none, and nothing
// is laid.
pub fn lay_one(
    table: &mut [u32],
    s: &[u8],
    at: usize,
    stop: usize,
    levels: usize,
    row: usize,
    base: usize,
    around: usize,
    doubt: bool,
    children: Children,
    i: usize,
) -> Option<usize>
    requires ready { Ready (child children (value levels s.now) s.now around i at stop) doubt table.old row base (in_force children around i) }
    requires at_le_stop { (at ≤ stop) × (stop ≤ length s.now) × (length s.now ≤ limit) }
    ensures { OneTried (child children (value levels s.now) s.now around i at stop) (is_key children i) table.old row (first_in base) (in_force children around i) table.new result }
{
    if children.is_key(i) {
        return Some(lay_key(table, s, at, stop, row));
    }
    match leaves::lay_plain(table, s, at, stop, row) {
        Some(next) => Some(next),
        None => {
            let inside = children.in_force(around, i);
            lay_marked(table, s, at, stop, levels, row, base, inside, doubt)
        }
    }
}
