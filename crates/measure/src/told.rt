// What is measured, in one number: an answer of several would go through memory at every position.
ghost use Rattle.std.specs.Prelude.{◌≡◌, ◌≤◌};
ghost use Rattle.rows.specs.Table.{limit};
ghost use Rattle.measure.specs.Inner.{place_and_row, place_in, row_in, is_broken, place_wrong, number_wrong, refusal_of, ended_at, Right, Wrong, told};

use format::Refusal;
use numbers::Numbered;

// From here on it is a refusal.
pub const WRONG: usize = 0x100000000000000;

// A place, and a row or so many rows.
pub fn place_and_row(next: usize, row: usize) -> usize
    requires { (next ≤ limit) × (row ≤ limit) }
    ensures { result ≡ place_and_row next row }
{
    next + 0x1000000 * row
}

// The place in it.
pub fn place_in(f: usize) -> usize
    ensures { result ≡ place_in f }
{
    f % 0x1000000
}

// The row in it, or how many.
pub fn row_in(f: usize) -> usize
    ensures { result ≡ row_in f }
{
    f / 0x1000000 % 0x1000000
}

// A right reading.
pub fn right(rows: usize, next: usize, broken: bool) -> usize
    requires { (next ≤ limit) × (rows ≤ limit) }
    ensures { result ≡ told (Right rows next broken) }
{
    let f = place_and_row(next, rows);
    if broken {
        return f + 0x1000000000000;
    }
    f
}

// Whether one of its foreign documents is damaged.
pub fn is_broken(f: usize) -> bool
    ensures { result ≡ is_broken f }
{
    0x1000000000000 <= f
}

// A refusal.
pub fn wrong(why: Refusal, place: usize) -> usize
    requires { place ≤ limit }
    ensures { result ≡ told (Wrong why place) }
{
    place + WRONG * why.number() as usize
}

// Its number.
pub fn number_in(f: usize) -> u32
    ensures { result ≡ number_wrong f }
{
    (f / WRONG) as u32
}

// The refusal that has the number n.
#[tactic(auto, unfolding(crate::specs::Inner::refusal_of))]
fn refusal_of(n: usize) -> Refusal
    ensures { result ≡ refusal_of n }
{
    match n {
        2 => Refusal::Short,
        3 => Refusal::Marker,
        4 => Refusal::Huge,
        5 => Refusal::Text,
        6 => Refusal::Char,
        7 => Refusal::NoEntry,
        8 => Refusal::Empty,
        9 => Refusal::Deep,
        _ => Refusal::Extra,
    }
}

// The refusal itself.
pub fn why_in(f: usize) -> Refusal
    ensures { result ≡ refusal_of (number_wrong f) }
{
    refusal_of(f / WRONG)
}

// Its place.
pub fn wrong_place(f: usize) -> usize
    ensures { result ≡ place_wrong f }
{
    f % WRONG
}

// What a value position makes of all the bytes up to `stop`: none may stand behind it.
pub fn ended(f: usize, stop: usize) -> usize
    ensures { result ≡ ended_at stop f }
{
    if WRONG <= f {
        return f;
    }
    let next = place_in(f);
    if next == stop {
        return f;
    }
    wrong(Refusal::Extra, next)
}
