// For speed alone: without the one call of `behind_plain` the check says the same. A plain byte, one of UTF8-1, is a sequence by itself, and
// its top bit is clear. So a run of them is passed eight at a time: eight bytes are one number of 64 bits, in which the top bits of all eight
// are asked at once.
ghost use Rattle.std.specs.Prelude.{◌≤◌, length};
ghost use Rattle.text.specs.Inner.{PlainTo};

use super::lines::is_plain;

// The top bit of each of eight bytes.
const TOPS: u64 = 0x8080_8080_8080_8080;

// Where the plain bytes from `from` on end. Behind a longer sequence there are mostly none, so that is asked first.
pub fn behind_plain(s: &[u8], from: usize) -> usize
    requires { from ≤ length s.now }
    ensures { PlainTo s.now from result }
{
    if s.len() <= from || !is_plain(s[from]) {
        return from;
    }
    let mut at = from;
    while let Some(eight) = s[at..].first_chunk::<8>() {
        if u64::from_le_bytes(*eight) & TOPS != 0 {
            break;
        }
        at += 8;
    }
    // Both by hand: with take_while(..).count() the check has 441 bytes at -Os, with as_chunks() 425, and 400 is the bar.
    while at < s.len() && is_plain(s[at]) {
        at += 1;
    }
    at
}
