// Heads whose length, count or number stands behind their markers, at `from`.
ghost use Rattle.std.specs.Prelude.{◌≡◌, ◌≤◌, length, IfOk};
ghost use Rattle.wide.specs.Members.{key_length};
ghost use Rattle.format.specs.Head.{placed, count_at, spelling_of, text_head, binary_head, holder_head, refer_head, declare_head, foreign_head, key_at};

use crate::body::{bodied, spelling, text_body};
use crate::count::length_at;
use format::{Content, Count, Head, Holder, Refusal, Refused, Spelling};
use rows::Row;

// The length, count or number itself; what is refused is refused at the marker.
fn counted(s: &[u8], at: usize, from: usize, stop: usize) -> Result<Count, Refused>
    requires { (from ≤ stop) × (stop ≤ length s.now) }
    ensures value { result ≡ placed at (count_at key_length s.now from stop) }
    ensures within { IfOk result (λ c. c.next ≤ stop) }
{
    length_at(s, from, stop).map_err(|why| why.at(at))
}

// A text.
pub fn text(s: &[u8], at: usize, from: usize, stop: usize) -> Result<Head, Refused>
    requires { (from ≤ stop) × (stop ≤ length s.now) }
    ensures { result ≡ text_head at (spelling_of s.now stop (count_at key_length s.now from stop)) }
{
    let c = counted(s, at, from, stop)?;
    text_body(s, at, c.next, c.value, stop)
}

// A record's key at `at`: no marker stands before its length.
#[tactic(auto, unfolding(format::specs::Head::key_at))]
pub fn key_at(s: &[u8], at: usize, stop: usize) -> Result<Spelling, Refusal>
    requires { (at ≤ stop) × (stop ≤ length s.now) }
    ensures { result ≡ key_at s.now at stop }
{
    let c = length_at(s, at, stop)?;
    spelling(s, c.next, c.value, stop)
}

// A binary.
pub fn binary(s: &[u8], at: usize, from: usize, stop: usize) -> Result<Head, Refused>
    requires { (from ≤ stop) × (stop ≤ length s.now) }
    ensures { result ≡ binary_head at stop (count_at key_length s.now from stop) }
{
    let c = counted(s, at, from, stop)?;
    let content = Content::Span {
        kind: Row::BINARY,
        place: c.next,
        size: c.value,
    };
    bodied(at, content, c.next, c.value, stop)
}

// An array, a record or a map.
pub fn holder(
    s: &[u8],
    at: usize,
    from: usize,
    stop: usize,
    holder: Holder,
) -> Result<Head, Refused>
    requires { (from ≤ stop) × (stop ≤ length s.now) }
    ensures { result ≡ holder_head holder at (count_at key_length s.now from stop) }
{
    let c = counted(s, at, from, stop)?;
    Ok(Head::Hold {
        holder,
        count: c.value,
        next: c.next,
    })
}

// A reference.
pub fn reference(s: &[u8], at: usize, from: usize, stop: usize) -> Result<Head, Refused>
    requires { (from ≤ stop) × (stop ≤ length s.now) }
    ensures { result ≡ refer_head at (count_at key_length s.now from stop) }
{
    let c = counted(s, at, from, stop)?;
    Ok(Head::Refer {
        number: c.value,
        next: c.next,
    })
}

// A declaration.
pub fn declaration(s: &[u8], at: usize, from: usize, stop: usize) -> Result<Head, Refused>
    requires { (from ≤ stop) × (stop ≤ length s.now) }
    ensures { result ≡ declare_head at (count_at key_length s.now from stop) }
{
    let c = counted(s, at, from, stop)?;
    if c.value == 0 {
        return Err(Refusal::Empty.at(at));
    }
    Ok(Head::Declare {
        count: c.value,
        next: c.next,
    })
}

// A foreign document.
pub fn foreign(s: &[u8], at: usize, from: usize, stop: usize) -> Result<Head, Refused>
    requires { (from ≤ stop) × (stop ≤ length s.now) }
    ensures { result ≡ foreign_head at stop (count_at key_length s.now from stop) }
{
    let c = counted(s, at, from, stop)?;
    if stop - c.next < c.value {
        return Err(Refusal::Short.at(at));
    }
    Ok(Head::Foreign {
        place: c.next,
        size: c.value,
    })
}
