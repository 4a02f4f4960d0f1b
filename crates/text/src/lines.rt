// RFC 3629, section 4, line by line: every range of the code stands in this file, and in no other of its files.
ghost use Rattle.std.specs.Prelude.{◌+◌, ◌≤◌, ◌≡◌};
ghost use Rattle.text.specs.Syntax.{◌to◌, UTF8-tail, plain_byte};
ghost use Rattle.text.specs.Check.{in_range};
ghost use Rattle.text.specs.Inner.{goes_on, lead_of};

use super::lead::Lead;

// Whether b is a byte from low to high.
pub fn within(b: u8, low: u8, high: u8) -> bool
    ensures { result ≡ in_range (low to high) b }
{
    low <= b && b <= high
}

// UTF8-1 = %x00-7F: whether b is plain, a sequence by itself.
pub fn is_plain(b: u8) -> bool
    ensures { result ≡ in_range plain_byte b }
{
    within(b, 0x00, 0x7f)
}

// Behind the first byte: n( UTF8-tail )
fn tails(n: usize) -> Option<Lead>
    ensures { result ≡ goes_on n UTF8-tail }
{
    Some(Lead {
        left: n,
        low: TAIL_LOW,
        high: TAIL_HIGH,
    })
}

// Behind the first byte: one from low to high, then n( UTF8-tail )
fn then(low: u8, high: u8, n: usize) -> Option<Lead>
    requires { n ≤ 2 }
    ensures { result ≡ goes_on (n + 1) (low to high) }
{
    Some(Lead {
        left: n + 1,
        low,
        high,
    })
}

// The lines that the first byte of a sequence tells apart.
pub fn lead_of(b: u8) -> Option<Lead>
    ensures { result ≡ lead_of b }
{
    if is_plain(b) {
        tails(0) // UTF8-1
    } else if within(b, 0xc2, 0xdf) {
        tails(1) // UTF8-2 = %xC2-DF UTF8-tail
    } else if b == 0xe0 {
        then(0xa0, 0xbf, 1) // UTF8-3 = %xE0 %xA0-BF UTF8-tail
    } else if within(b, 0xe1, 0xec) {
        tails(2) //                   / %xE1-EC 2( UTF8-tail )
    } else if b == 0xed {
        then(0x80, 0x9f, 1) //        / %xED %x80-9F UTF8-tail
    } else if within(b, 0xee, 0xef) {
        tails(2) //                   / %xEE-EF 2( UTF8-tail )
    } else if b == 0xf0 {
        then(0x90, 0xbf, 2) // UTF8-4 = %xF0 %x90-BF 2( UTF8-tail )
    } else if within(b, 0xf1, 0xf3) {
        tails(3) //                   / %xF1-F3 3( UTF8-tail )
    } else if b == 0xf4 {
        then(0x80, 0x8f, 2) //        / %xF4 %x80-8F 2( UTF8-tail )
    } else {
        None
    }
}

// UTF8-tail = %x80-BF
pub const TAIL_LOW: u8 = 0x80;

pub const TAIL_HIGH: u8 = 0xbf;
