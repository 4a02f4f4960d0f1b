// Laying the rows of a position that reads right, the shape of measuring. Every answer is the place behind what was read and the row behind its
// rows, in one number. The registry in force is the base of its entries and how many they are; where there is no doubt, no foreign document
// here is damaged.
ghost use Rattle.std.specs.Prelude.{◌+◌, ◌≤◌, ◌<◌, length};
ghost use Rattle.rows.specs.Table.{limit};
ghost use Rattle.rows.specs.Kinds.{holder_own};
ghost use Rattle.format.specs.declared.head.Children.TheVariants.{Entries};
ghost use Rattle.format.specs.Value.{kind_of, child_count, children_of, readings, holding, declaring, whole, in_foreign, framed, value};
ghost use Rattle.registry.specs.Inner.{first_in};
ghost use Rattle.laying.specs.Inner.{Right, Ready, Did, ReadyAll, DidAll};

use crate::one::{lay_damaged, lay_leaf, lay_one, lay_reference};
use format::{Children, Head, Holder};
use measure::told;
use measure::told::{place_and_row, place_in, row_in};
use rows::Row;

// One value position, from its own row on: its leaf is tried before its head.
#[cycle(laying)]
pub fn lay_value(
    table: &mut [u32],
    s: &[u8],
    at: usize,
    stop: usize,
    levels: usize,
    row: usize,
    base: usize,
    around: usize,
    doubt: bool,
) -> usize
    requires ready { Ready (value levels s.now around at stop) doubt table.old row base around }
    requires stop_in_bounds { (stop ≤ length s.now) × (length s.now ≤ limit) }
    ensures { Did (value levels s.now around at stop) table.old row (first_in base) around table.new result }
{
    match leaves::lay_plain(table, s, at, stop, row) {
        Some(next) => place_and_row(next, row + 1),
        None => lay_at(table, s, at, stop, levels, row, base, around, doubt),
    }
}

// A position by its head.
#[cycle(laying)]
fn lay_at(
    table: &mut [u32],
    s: &[u8],
    at: usize,
    stop: usize,
    levels: usize,
    row: usize,
    base: usize,
    around: usize,
    doubt: bool,
) -> usize
    requires ready { Ready (value levels s.now around at stop) doubt table.old row base around }
    requires levels_nonzero { (0 < levels) × (stop ≤ length s.now) × (length s.now ≤ limit) }
    ensures { Did (value levels s.now around at stop) table.old row (first_in base) around table.new result }
{
    match heads::head_at(s, at, stop).unwrap() {
        Head::Leaf { content, next } => lay_leaf(
            table, s, at, stop, levels, row, base, around, doubt, content, next,
        ),
        Head::Refer { number, next } => lay_reference(
            table, s, at, stop, levels, row, base, around, doubt, number, next,
        ),
        Head::Hold {
            holder,
            count,
            next,
        } => lay_hold(
            table,
            s,
            next,
            stop,
            levels - 1,
            row,
            base,
            around,
            doubt,
            holder,
            count,
        ),
        Head::Declare { count, next } => lay_declared(
            table,
            s,
            next,
            stop,
            levels - 1,
            row,
            base,
            around,
            doubt,
            count,
        ),
        Head::Foreign { place, size } => lay_foreign(
            table,
            s,
            place,
            size,
            levels - 1,
            row,
            base,
            around,
            doubt,
        ),
    }
}

// A holder whose children stand at `at`: its row last, since it tells where they end.
#[cycle(laying)]
fn lay_hold(
    table: &mut [u32],
    s: &[u8],
    at: usize,
    stop: usize,
    levels: usize,
    row: usize,
    base: usize,
    around: usize,
    doubt: bool,
    holder: Holder,
    count: usize,
) -> usize
    requires ready { Ready (holding (holder_own (kind_of holder) count) (readings (value levels s.now) (children_of holder) s.now around 0 (child_count holder count) at stop)) doubt table.old row base around }
    requires at_le_stop { (at ≤ stop) × (stop ≤ length s.now) × (length s.now ≤ limit) × (count ≤ limit) }
    ensures { Did (holding (holder_own (kind_of holder) count) (readings (value levels s.now) (children_of holder) s.now around 0 (child_count holder count) at stop)) table.old row (first_in base) around table.new result }
{
    let n = holder.children(count);
    let c = holder.reading();
    let under = row + 1;
    let f = lay_children(table, s, at, stop, levels, under, base, around, doubt, c, n);
    let end = row_in(f);
    rows::lay(table, row, Row::holder(holder.kind(), end, count));
    f
}

// A declaration whose entries stand at `at`, each in force for those behind it, and all for the value.
#[cycle(laying)]
fn lay_declared(
    table: &mut [u32],
    s: &[u8],
    at: usize,
    stop: usize,
    levels: usize,
    row: usize,
    base: usize,
    around: usize,
    doubt: bool,
    count: usize,
) -> usize
    requires ready { Ready (declaring count (readings (value levels s.now) Entries s.now 0 0 count at stop) (value levels s.now) stop) doubt table.old row base around }
    requires at_le_stop { (at ≤ stop) × (stop ≤ length s.now) × (length s.now ≤ limit) × (count ≤ limit) }
    ensures { Did (declaring count (readings (value levels s.now) Entries s.now 0 0 count at stop) (value levels s.now) stop) table.old row (first_in base) around table.new result }
{
    let under = row + 1;
    let es = lay_children(
        table,
        s,
        at,
        stop,
        levels,
        under,
        under,
        0,
        doubt,
        Children::Entries,
        count,
    );
    let next = place_in(es);
    let own = row_in(es);
    let inside = registry::base_of(under, own, count);
    let f = lay_value(table, s, next, stop, levels, own, inside, count, doubt);
    let end = row_in(f);
    rows::lay(table, row, Row::declaration(end, count));
    f
}

// A foreign body: where there is doubt, whether it is right is asked before a row of it is laid.
#[cycle(laying)]
fn lay_foreign(
    table: &mut [u32],
    s: &[u8],
    place: usize,
    size: usize,
    levels: usize,
    row: usize,
    base: usize,
    around: usize,
    doubt: bool,
) -> usize
    requires ready { Ready (framed place size (whole (place + size) (value levels s.now (in_foreign around) place (place + size)))) doubt table.old row base around }
    requires size_in_bounds { (place + size ≤ length s.now) × (length s.now ≤ limit) }
    ensures { Did (framed place size (whole (place + size) (value levels s.now (in_foreign around) place (place + size)))) table.old row (first_in base) around table.new result }
{
    if doubt {
        let end = place + size;
        let inside = format::in_foreign(around);
        let f = measure::measure_whole(s, place, end, levels, inside);
        if told::WRONG <= f {
            let verdict = told::number_in(f);
            return lay_damaged(
                table, s, place, size, levels, row, base, around, doubt, verdict,
            );
        }
        let broken = told::is_broken(f);
        return lay_right(table, s, place, size, levels, row, base, around, broken);
    }
    lay_right(table, s, place, size, levels, row, base, around, false)
}

// A foreign body that is right.
#[cycle(laying)]
fn lay_right(
    table: &mut [u32],
    s: &[u8],
    place: usize,
    size: usize,
    levels: usize,
    row: usize,
    base: usize,
    around: usize,
    doubt: bool,
) -> usize
    requires ready { Ready (framed place size (whole (place + size) (value levels s.now (in_foreign around) place (place + size)))) doubt table.old row base around }
    requires right { Right (whole (place + size) (value levels s.now (in_foreign around) place (place + size))) }
    requires size_in_bounds { (place + size ≤ length s.now) × (length s.now ≤ limit) }
    ensures { Did (framed place size (whole (place + size) (value levels s.now (in_foreign around) place (place + size)))) table.old row (first_in base) around table.new result }
{
    let inside = format::in_foreign(around);
    let end = place + size;
    let under = row + 1;
    let f = lay_value(table, s, place, end, levels, under, base, inside, doubt);
    let last = row_in(f);
    rows::lay(table, row, Row::foreign(last));
    f
}

// n children, back to back.
#[cycle(laying)]
fn lay_children(
    table: &mut [u32],
    s: &[u8],
    at: usize,
    stop: usize,
    levels: usize,
    row: usize,
    base: usize,
    around: usize,
    doubt: bool,
    children: Children,
    n: usize,
) -> usize
    requires ready_all { ReadyAll (readings (value levels s.now) children s.now around 0 n at stop) children doubt table.old row base around 0 }
    requires at_le_stop { (at ≤ stop) × (stop ≤ length s.now) × (length s.now ≤ limit) }
    ensures { DidAll (readings (value levels s.now) children s.now around 0 n at stop) children table.old row (first_in base) around 0 table.new result }
{
    let mut place = at;
    let mut under = row;
    for i in 0..n {
        let laid = lay_one(
            table, s, place, stop, levels, under, base, around, doubt, children, i,
        );
        match laid {
            Some(next) => {
                place = next;
                under += 1;
            }
            None => {
                let inside = children.in_force(around, i);
                let f = lay_at(table, s, place, stop, levels, under, base, inside, doubt);
                place = place_in(f);
                under = row_in(f);
            }
        }
    }
    place_and_row(place, under)
}
