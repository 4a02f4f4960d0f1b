// A child that takes one row, where its first bytes tell it: for speed alone. Every answer is the place behind it, or 0 where it is another, or
// none.
// No Option (tried, bar of speed missed): measuring records, passages and references took up to a quarter longer.
ghost use Rattle.std.specs.Prelude.{◌≤◌, length};
ghost use Rattle.rows.specs.Table.{limit};
ghost use Rattle.format.specs.Head.{head_at};
ghost use Rattle.format.specs.Value.{child, value};
ghost use Rattle.measure.specs.Inner.{ReferAsked, OneRow};

use format::Children;

// A reference whose marker tells its number, where `around` entries are in force.
fn end_reference(s: &[u8], at: usize, stop: usize, around: usize) -> usize
    requires { (at ≤ stop) × (stop ≤ length s.now) × (length s.now ≤ limit) }
    ensures { ReferAsked (head_at s.now at stop) around result }
{
    if stop <= at {
        return 0;
    }
    let b = heads::index(s[at]);
    if b < 193 {
        return 0;
    }
    if b == 255 {
        return 0;
    }
    if b - 193 < around {
        return at + 1;
    }
    0
}

// Child number i of a holder.
pub fn end_child(
    s: &[u8],
    at: usize,
    stop: usize,
    levels: usize,
    around: usize,
    children: Children,
    i: usize,
) -> usize
    requires { (at ≤ stop) × (stop ≤ length s.now) × (length s.now ≤ limit) }
    ensures { OneRow (child children (value levels s.now) s.now around i at stop) result }
{
    if children.is_key(i) {
        return leaves::end_key(s, at, stop);
    }
    if levels == 0 {
        return 0;
    }
    let next = leaves::end_plain(s, at, stop);
    if next == 0 {
        return end_reference(s, at, stop, children.in_force(around, i));
    }
    next
}
