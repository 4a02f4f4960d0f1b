// The variable integers of both signs: 248 bytes are numbers, from 0 up to the eight that a body follows, and behind these below 0.
ghost use Rattle.std.specs.Prelude.{◌≡◌, ◌%◌, length};
ghost use Rattle.wide.specs.Words.{value_of, wide_of};
ghost use Rattle.wide.specs.Family.{behind, number_of, has_number, form};
ghost use Rattle.wide.specs.Inner.{variable};
ghost use Rattle.variable.specs.Answer.{read_of, written_of, output_of};

use crate::got::Got;
use crate::no_room::NoRoom;
use crate::short::Short;
use wide::{Wide, body, near, size};

// The first of the eight bytes that a body follows.
fn first_of(signed: bool) -> u8
    ensures { result ≡ (variable signed).first }
{
    if signed { 124 } else { 248 }
}

// How far a byte stands behind the first that a body follows, ff followed by 00.
fn place_of(b: u8, signed: bool) -> usize
    ensures { result ≡ behind 256 (variable signed).first b }
{
    b.wrapping_sub(first_of(signed)) as usize
}

// The number of a byte that no body follows.
fn direct(b: u8, signed: bool) -> Wide
    ensures { result ≡ wide_of (number_of (variable signed).direct b) }
{
    let below = 248 - first_of(signed);
    near::near(below as u32, b.wrapping_add(below) as u32)
}

// A variable integer at the front of a slice.
pub fn read(s: &[u8], signed: bool) -> Result<Got, Short>
    ensures { result ≡ read_of (variable signed) s.now }
{
    let Some((b, rest)) = s.split_first() else {
        return Err(Short);
    };
    let place = place_of(*b, signed);
    if 8 <= place {
        let value = direct(*b, signed);
        return Ok(Got { value, used: 1 });
    }
    let size = size::size_at(place);
    if rest.len() < size {
        return Err(Short);
    }
    let value = body::read_body(rest, 0, size, signed);
    Ok(Got {
        value,
        used: size + 1,
    })
}

// Whether a byte alone is the number.
fn is_direct(w: Wide, signed: bool) -> bool
    ensures { result ≡ has_number (variable signed).direct (value_of w) }
{
    let first = first_of(signed) as u32;
    near::is_near(w, 248 - first, first)
}

// The lowest byte.
fn low(w: Wide) -> u8
    ensures { result ≡ value_of w % 256 }
{
    (w.w0 % 256) as u8
}

// A variable integer, shortest, at the front of an output.
pub fn write(out: &mut [u8], w: Wide, signed: bool) -> Result<usize, NoRoom>
    ensures value { result ≡ written_of (form (variable signed) (value_of w)) (length out.old) }
    ensures out_after { out.new ≡ output_of (form (variable signed) (value_of w)) out.old }
{
    if is_direct(w, signed) {
        let Some(first) = out.first_mut() else {
            return Err(NoRoom { needed: 1 });
        };
        *first = low(w);
        return Ok(1);
    }
    let rank = size::rank_of(w, signed);
    let size = size::size_at(rank);
    let needed = size + 1;
    if out.len() < needed {
        return Err(NoRoom { needed });
    }
    out[0] = first_of(signed) + rank as u8;
    body::write_body(out, 1, size, w);
    Ok(needed)
}
