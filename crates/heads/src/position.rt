// What stands at a value position.
ghost use Rattle.std.specs.Prelude.{◌≡◌, ◌≤◌, ◌<◌, length, get_or};
ghost use Rattle.format.specs.Head.{integer_head, special_head, head_at};

use crate::behind;
use crate::body::{bodied, char_head, float_size, text_body};
use crate::count::index;
use format::{Content, Head, Holder, Refusal, Refused};
use rows::Row;
use wide::size::size_at;

// The marker 0d.
fn special(s: &[u8], at: usize, stop: usize) -> Result<Head, Refused>
    requires { (at < stop) × (stop ≤ length s.now) × (get_or s.now at 0 ≡ 13) }
    ensures { result ≡ special_head s.now at stop }
{
    let second = at + 1;
    if stop <= second {
        return Err(Refusal::Short.at(at));
    }
    let b = index(s[second]);
    if b == 13 {
        return behind::declaration(s, at, second + 1, stop);
    }
    if b == 0 {
        return behind::foreign(s, at, second + 1, stop);
    }
    Err(Refusal::Marker.at(at))
}

// The markers 10 to 1f: integers with a body.
fn integer(at: usize, stop: usize, rank: usize, signed: bool) -> Result<Head, Refused>
    requires { (at < stop) × (rank < 8) }
    ensures { result ≡ integer_head at stop rank signed }
{
    let place = at + 1;
    let size = size_at(rank);
    let content = Content::Integer {
        signed,
        place,
        size,
    };
    bodied(at, content, place, size, stop)
}

// The markers 08 to 0f.
fn special_low(s: &[u8], at: usize, stop: usize, b: usize) -> Result<Head, Refused>
    requires { (at < stop) × (stop ≤ length s.now) × (b ≡ get_or s.now at 0) × (8 ≤ b) × (b < 16) }
    ensures { result ≡ head_at s.now at stop }
{
    let from = at + 1;
    if b == 8 {
        return behind::text(s, at, from, stop);
    }
    if b == 9 {
        return behind::holder(s, at, from, stop, Holder::Array);
    }
    if b == 10 {
        return behind::holder(s, at, from, stop, Holder::Record);
    }
    if b == 11 {
        return behind::holder(s, at, from, stop, Holder::Map);
    }
    if b == 12 {
        return behind::binary(s, at, from, stop);
    }
    if b == 13 {
        return special(s, at, stop);
    }
    Err(Refusal::Marker.at(at))
}

// The markers 00 to 1f.
fn low(s: &[u8], at: usize, stop: usize, b: usize) -> Result<Head, Refused>
    requires { (at < stop) × (stop ≤ length s.now) × (b ≡ get_or s.now at 0) × (b < 32) }
    ensures { result ≡ head_at s.now at stop }
{
    let next = at + 1;
    if b < 3 {
        return Ok(Head::Leaf {
            content: Content::Constant {
                kind: (b + 1) as u32,
            },
            next,
        });
    }
    if b < 8 {
        let size = float_size(b);
        let content = Content::Span {
            kind: Row::FLOAT,
            place: next,
            size,
        };
        return bodied(at, content, next, size, stop);
    }
    if b < 16 {
        return special_low(s, at, stop, b);
    }
    if b < 24 {
        return integer(at, stop, b - 16, true);
    }
    integer(at, stop, b - 24, false)
}

// The markers a0 to ff.
fn high(s: &[u8], at: usize, stop: usize, b: usize) -> Result<Head, Refused>
    requires { (at < stop) × (stop ≤ length s.now) × (b ≡ get_or s.now at 0) × (160 ≤ b) × (b < 256) }
    ensures { result ≡ head_at s.now at stop }
{
    let next = at + 1;
    if b < 176 {
        return Ok(Head::Hold {
            holder: Holder::Array,
            count: b - 159,
            next,
        });
    }
    if b < 184 {
        return Ok(Head::Hold {
            holder: Holder::Record,
            count: b - 175,
            next,
        });
    }
    if b < 192 {
        return Ok(Head::Hold {
            holder: Holder::Map,
            count: b - 183,
            next,
        });
    }
    if b == 192 {
        return char_head(s, at, stop);
    }
    if b < 255 {
        return Ok(Head::Refer {
            number: b - 193,
            next,
        });
    }
    behind::reference(s, at, next, stop)
}

// What stands at `at`, in bytes that end at `stop`.
pub fn head_at(s: &[u8], at: usize, stop: usize) -> Result<Head, Refused>
    requires { stop ≤ length s.now }
    ensures { result ≡ head_at s.now at stop }
{
    if stop <= at {
        return Err(Refusal::Short.at(at));
    }
    let marker = s[at];
    let b = index(marker);
    if b < 32 {
        return low(s, at, stop, b);
    }
    if b < 128 {
        return Ok(Head::Leaf {
            content: Content::Small { marker },
            next: at + 1,
        });
    }
    if b < 160 {
        return text_body(s, at, at + 1, b - 127, stop);
    }
    high(s, at, stop, b)
}
