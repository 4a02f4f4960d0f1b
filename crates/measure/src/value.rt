// Value reading calls child reading, which calls value reading again, the levels left falling at each round.
ghost use Rattle.std.specs.Prelude.{◌≡◌, ◌+◌, ◌≤◌, ◌<◌, length};
ghost use Rattle.rows.specs.Table.{limit};
ghost use Rattle.rows.specs.Kinds.{holder_own};
ghost use Rattle.format.specs.declared.head.Children.TheVariants.{Entries};
ghost use Rattle.format.specs.Value.{kind_of, child_count, children_of, child, readings, holding, declaring, whole, in_foreign, framed, value};
ghost use Rattle.measure.specs.Inner.{measured_of, measured_all, told};

use crate::key::measure_key;
use crate::plain::end_child;
use crate::told::{WRONG, ended, is_broken, place_in, right, row_in, wrong};
use format::{Children, Head, Holder, Refusal};

// One value position; `levels` are left, its own with them, and `around` entries are in force.
#[cycle(measuring)]
pub fn measure_value(s: &[u8], at: usize, stop: usize, levels: usize, around: usize) -> usize
    requires { (at ≤ stop) × (stop ≤ length s.now) × (length s.now ≤ limit) }
    ensures { result ≡ told (measured_of (value levels s.now around at stop)) }
{
    if levels == 0 {
        return wrong(Refusal::Deep, at);
    }
    let h = match heads::head_at(s, at, stop) {
        Ok(h) => h,
        Err(e) => return wrong(e.why, e.place),
    };
    match h {
        Head::Leaf { content: _, next } => right(1, next, false),
        Head::Refer { number, next } => {
            if number < around {
                return right(1, next, false);
            }
            wrong(Refusal::NoEntry, at)
        }
        Head::Hold {
            holder,
            count,
            next,
        } => measure_hold(s, next, stop, levels - 1, around, holder, count),
        Head::Declare { count, next } => measure_declared(s, next, stop, levels - 1, count),
        Head::Foreign { place, size } => measure_framed(s, place, size, levels - 1, around),
    }
}

// A holder's children stand at `at`.
#[cycle(measuring)]
fn measure_hold(
    s: &[u8],
    at: usize,
    stop: usize,
    levels: usize,
    around: usize,
    holder: Holder,
    count: usize,
) -> usize
    requires { (0 < at) × (at ≤ stop) × (stop ≤ length s.now) × (length s.now ≤ limit) × (count ≤ limit) }
    ensures { result ≡ told (measured_of (holding (holder_own (kind_of holder) count) (readings (value levels s.now) (children_of holder) s.now around 0 (child_count holder count) at stop))) }
{
    let n = holder.children(count);
    let f = measure_children(s, at, stop, levels, around, holder.reading(), n);
    if WRONG <= f {
        return f;
    }
    right(1 + row_in(f), place_in(f), is_broken(f))
}

// A declaration's entries stand at `at`, and its value behind them.
#[cycle(measuring)]
fn measure_declared(s: &[u8], at: usize, stop: usize, levels: usize, count: usize) -> usize
    requires { (0 < at) × (at ≤ stop) × (stop ≤ length s.now) × (length s.now ≤ limit) }
    ensures { result ≡ told (measured_of (declaring count (readings (value levels s.now) Entries s.now 0 0 count at stop) (value levels s.now) stop)) }
{
    let es = measure_children(s, at, stop, levels, 0, Children::Entries, count);
    if WRONG <= es {
        return es;
    }
    let f = measure_value(s, place_in(es), stop, levels, count);
    if WRONG <= f {
        return f;
    }
    let broken = is_broken(es) | is_broken(f);
    right(1 + (row_in(es) + row_in(f)), place_in(f), broken)
}

// A foreign body of `size` bytes stands at `place`: right or damaged, it is read once.
#[cycle(measuring)]
fn measure_framed(s: &[u8], place: usize, size: usize, levels: usize, around: usize) -> usize
    requires { (0 < place) × (place + size ≤ length s.now) × (length s.now ≤ limit) }
    ensures { result ≡ told (measured_of (framed place size (whole (place + size) (value levels s.now (in_foreign around) place (place + size))))) }
{
    let end = place + size;
    let inside = format::in_foreign(around);
    let f = ended(measure_value(s, place, end, levels, inside), end);
    if WRONG <= f {
        return right(1, end, true);
    }
    right(1 + row_in(f), end, is_broken(f))
}

// Child number i of a holder.
#[cycle(measuring)]
fn measure_child(
    s: &[u8],
    at: usize,
    stop: usize,
    levels: usize,
    around: usize,
    children: Children,
    i: usize,
) -> usize
    requires { (at ≤ stop) × (stop ≤ length s.now) × (length s.now ≤ limit) }
    ensures { result ≡ told (measured_of (child children (value levels s.now) s.now around i at stop)) }
{
    if children.is_key(i) {
        return measure_key(s, at, stop);
    }
    measure_value(s, at, stop, levels, children.in_force(around, i))
}

// count children, back to back.
#[cycle(measuring)]
fn measure_children(
    s: &[u8],
    at: usize,
    stop: usize,
    levels: usize,
    around: usize,
    children: Children,
    count: usize,
) -> usize
    requires { (at ≤ stop) × (stop ≤ length s.now) × (length s.now ≤ limit) }
    ensures { result ≡ told (measured_all (readings (value levels s.now) children s.now around 0 count at stop)) }
{
    let mut rows = 0;
    let mut place = at;
    let mut broken = false;
    for i in 0..count {
        let next = end_child(s, place, stop, levels, around, children, i);
        if next == 0 {
            let f = measure_child(s, place, stop, levels, around, children, i);
            if WRONG <= f {
                return f;
            }
            rows += row_in(f);
            place = place_in(f);
            broken |= is_broken(f);
            continue; // for speed alone: with an else the compiler makes one loop of two, and saves registers around each text
        }
        rows += 1;
        place = next;
    }
    right(rows, place, broken)
}
