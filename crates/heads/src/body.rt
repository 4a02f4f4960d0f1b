// Leaves that have a body.
ghost use Rattle.std.specs.Prelude.{◌≡◌, ◌+◌, ◌*◌, ◌≤◌, ◌<◌, length};
ghost use Rattle.format.specs.Head.{bodied, spelling, text_head, codepoint, char_head, float_size};

use crate::count::index;
use format::{Content, Head, Refusal, Refused, Spelling};
use rows::Row;

// A leaf whose body has `size` bytes from `place` on.
pub fn bodied(
    at: usize,
    content: Content,
    place: usize,
    size: usize,
    stop: usize,
) -> Result<Head, Refused>
    requires { place ≤ stop }
    ensures { result ≡ bodied at content place size stop }
{
    if stop - place < size {
        return Err(Refusal::Short.at(at));
    }
    Ok(Head::Leaf {
        content,
        next: place + size,
    })
}

// The bytes of a text or of a key: whether they are there first, then whether they are text.
pub fn spelling(s: &[u8], place: usize, size: usize, stop: usize) -> Result<Spelling, Refusal>
    requires { (place ≤ stop) × (stop ≤ length s.now) }
    ensures { result ≡ spelling s.now place size stop }
{
    if stop - place < size {
        return Err(Refusal::Short);
    }
    let end = place + size;
    if text::is_well_formed(&s[place..end]) {
        return Ok(Spelling { place, size });
    }
    Err(Refusal::Text)
}

// A text at `at`, whose bytes are from `place` on.
pub fn text_body(
    s: &[u8],
    at: usize,
    place: usize,
    size: usize,
    stop: usize,
) -> Result<Head, Refused>
    requires { (place ≤ stop) × (stop ≤ length s.now) }
    ensures { result ≡ text_head at (spelling s.now place size stop) }
{
    let x = spelling(s, place, size, stop).map_err(|why| why.at(at))?;
    Ok(Head::Leaf {
        content: Content::Span {
            kind: Row::TEXT,
            place: x.place,
            size: x.size,
        },
        next: x.place + x.size,
    })
}

// Whether a number is a codepoint that a char may have; `char::from_u32` would ask that it has 32 bits first.
pub fn is_codepoint(c: usize) -> bool
    ensures { result ≡ codepoint c }
{
    c <= 0x10FFFF && !(0xD800 <= c && c <= 0xDFFF)
}

// A char behind its marker at `at`.
pub fn char_head(s: &[u8], at: usize, stop: usize) -> Result<Head, Refused>
    requires { (at < stop) × (stop ≤ length s.now) }
    ensures { result ≡ char_head s.now at stop }
{
    if stop - at < 4 {
        return Err(Refusal::Short.at(at));
    }
    let c = index(s[at + 1]) + 256 * (index(s[at + 2]) + 256 * index(s[at + 3]));
    if is_codepoint(c) {
        return Ok(Head::Leaf {
            content: Content::Char {
                codepoint: c as u32,
            },
            next: at + 4,
        });
    }
    Err(Refusal::Char.at(at))
}

// The sizes of floats, by their markers 03 to 07.
pub fn float_size(b: usize) -> usize
    requires { (3 ≤ b) × (b < 8) }
    ensures { result ≡ float_size b }
{
    [2, 4, 8, 16, 32][b - 3]
}
