// Laying a row's own bytes.
ghost use Rattle.std.specs.Prelude.{◌≡◌, true, false, ◌+◌, ◌≤◌, length, take, drop};
ghost use Rattle.std.proofs.lemmas.List.Edits.{sets};
ghost use Rattle.encode.specs.Encode.{has_bytes};
ghost use Rattle.plan.specs.Inner.{marks_of, plan_bytes};
ghost use Rattle.rows.specs.Table.{own_of};
ghost use Rattle.rules.specs.Shape.{named};
ghost use Rattle.spell.specs.Inner.{Inside, own_bytes, own_size};

use plan::{Marks, Plan, head_of};
use rows::Row;
use rules::Kind;

// Whether a row has bytes of the data.
fn has_bytes(w: Row) -> bool
    ensures { result ≡ has_bytes (named (own_of w)) }
{
    matches!(
        rules::named(w),
        Kind::Float | Kind::Text | Kind::Binary | Kind::Damaged | Kind::Key
    )
}

// How many bytes a row has of its own, where its children take `size`.
pub fn row_size(w: Row, size: usize) -> usize
    ensures { result ≡ own_size w size }
{
    let p = head_of(w, size);
    let head = p.len();
    if has_bytes(w) {
        return head + rows::number(w.w1);
    }
    head
}

fn put_marks(out: &mut [u8], at: usize, marks: Marks) -> usize
    requires { at + length (marks_of marks) ≤ length out.old }
    ensures value { result ≡ at + length (marks_of marks) }
    ensures out_after { out.new ≡ sets out.old at (marks_of marks) }
{
    match marks {
        Marks::Bare => at,
        Marks::One(a) => {
            out[at] = a;
            at + 1
        }
        Marks::Two(a, b) => {
            out[at] = a;
            out[at + 1] = b;
            at + 2
        }
    }
}

fn put_plan(out: &mut [u8], at: usize, p: Plan) -> usize
    requires { at + length (plan_bytes p) ≤ length out.old }
    ensures value { result ≡ at + length (plan_bytes p) }
    ensures out_after { out.new ≡ sets out.old at (plan_bytes p) }
{
    let next = put_marks(out, at, p.marks);
    out[next] = p.lead;
    wide::body::write_body(out, next + 1, p.size, p.value);
    next + 1 + p.size
}

// Eight bytes of the data from `place` on: one load and one store. A copy_from_slice of eight asks each time whether they overlap, and an
// array of eight goes through memory.
fn put_eight(out: &mut [u8], at: usize, data: &[u8], place: usize)
    requires { (at + 8 ≤ length out.old) × (place + 8 ≤ length «data».now) }
    ensures { out.new ≡ sets out.old at (take 8 (drop place «data».now)) }
{
    let a = data[place];
    let b = data[place + 1];
    let c = data[place + 2];
    let d = data[place + 3];
    let e = data[place + 4];
    let f = data[place + 5];
    let g = data[place + 6];
    let h = data[place + 7];
    out[at] = a;
    out[at + 1] = b;
    out[at + 2] = c;
    out[at + 3] = d;
    out[at + 4] = e;
    out[at + 5] = f;
    out[at + 6] = g;
    out[at + 7] = h;
}

// `size` bytes of the data from `place` on: few one by one, more in eights, and the last eight again where they are not all new. One
// copy_from_slice of `size` bytes would be a call of memmove, which the archive for C is to do without.
fn put_part(out: &mut [u8], at: usize, data: &[u8], place: usize, size: usize)
    requires { (at + size ≤ length out.old) × (place + size ≤ length «data».now) }
    ensures { out.new ≡ sets out.old at (take size (drop place «data».now)) }
{
    if size < 8 {
        for i in 0..size {
            out[at + i] = data[place + i];
        }
        return;
    }
    let mut laid = 0;
    while 8 < size - laid {
        put_eight(out, at + laid, data, place + laid);
        laid += 8;
    }
    put_eight(out, at + (size - 8), data, place + (size - 8));
}

// A row's own bytes at `at`, where it has none of the data; only the contract speaks of them.
fn put_bare(out: &mut [u8], at: usize, data: &[u8], w: Row, size: usize) -> usize
    requires { (has_bytes (named (own_of w)) ≡ false) × (at + length (own_bytes «data».now w size) ≤ length out.old) }
    ensures value { result ≡ at + length (own_bytes «data».now w size) }
    ensures out_after { out.new ≡ sets out.old at (own_bytes «data».now w size) }
{
    let p = head_of(w, size);
    put_plan(out, at, p)
}

// A row's own bytes at `at`, where it has some of the data.
fn put_with(out: &mut [u8], at: usize, data: &[u8], w: Row, size: usize) -> usize
    requires { (has_bytes (named (own_of w)) ≡ true) × Inside «data».now w × (at + length (own_bytes «data».now w size) ≤ length out.old) }
    ensures value { result ≡ at + length (own_bytes «data».now w size) }
    ensures out_after { out.new ≡ sets out.old at (own_bytes «data».now w size) }
{
    let p = head_of(w, size);
    let next = put_plan(out, at, p);
    let count = rows::number(w.w1);
    put_part(out, next, data, rows::number(w.w0), count);
    next + count
}

// A row's own bytes at `at`, where its children take `size`; the place behind them. Each kind has a call of its own, which is compiled for
// that kind alone: no plan passes through memory.
pub fn put_row(out: &mut [u8], at: usize, data: &[u8], w: Row, size: usize) -> usize
    requires { Inside «data».now w × (at + length (own_bytes «data».now w size) ≤ length out.old) }
    ensures value { result ≡ at + length (own_bytes «data».now w size) }
    ensures out_after { out.new ≡ sets out.old at (own_bytes «data».now w size) }
{
    match rules::named(w) {
        Kind::Constant => put_bare(out, at, data, w, size),
        Kind::Small => put_bare(out, at, data, w, size),
        Kind::Signed => put_bare(out, at, data, w, size),
        Kind::Unsigned => put_bare(out, at, data, w, size),
        Kind::Float => put_with(out, at, data, w, size),
        Kind::Text => put_with(out, at, data, w, size),
        Kind::Holds { holder: _ } => put_bare(out, at, data, w, size),
        Kind::Binary => put_with(out, at, data, w, size),
        Kind::Char => put_bare(out, at, data, w, size),
        Kind::Reference => put_bare(out, at, data, w, size),
        Kind::Declaration => put_bare(out, at, data, w, size),
        Kind::Whole => put_bare(out, at, data, w, size),
        Kind::Damaged => put_with(out, at, data, w, size),
        Kind::Key => put_with(out, at, data, w, size),
        Kind::Unknown => put_bare(out, at, data, w, size),
    }
}
