// Bodies of 1 to 16 bytes.
ghost use Rattle.std.specs.Prelude.{◌≡◌, ◌&&◌, ◌+◌, ◌≤◌, length, take, drop, leb};
ghost use Rattle.std.proofs.lemmas.List.Edits.{sets};
ghost use Rattle.wide.specs.Number.{bytes_of};
ghost use Rattle.wide.specs.Words.{value_of, wide_of};
ghost use Rattle.wide.specs.Body.{body_value};

use crate::step;
use crate::wide::Wide;

// Whether a body with that top byte is negative.
fn is_negative(signed: bool, top: u8) -> bool
    ensures { result ≡ (signed && leb 128 top) }
{
    signed && 128 <= top
}

// A body of `size` bytes at `at`, taken to 128 bits.
pub fn read_body(s: &[u8], at: usize, size: usize, signed: bool) -> Wide
    requires { (1 ≤ size) × (size ≤ 16) × (at + size ≤ length s.now) }
    ensures { result ≡ wide_of (body_value signed (take size (drop at s.now))) }
{
    let body = &s[at..at + size];
    let mut w = step::filled(is_negative(signed, body[size - 1]));
    for b in body.iter().rev() {
        w = step::shift_in(w, *b);
    }
    w
}

// The low `count` bytes of a word, one by one: with a copy_from_slice of so many, writing integers took 1.22 of its time.
fn put_word(out: &mut [u8], at: usize, count: usize, w: u32)
    requires { (count ≤ 4) × (at + count ≤ length out.old) }
    ensures { out.new ≡ sets out.old at (bytes_of count w) }
{
    if count == 0 {
        return;
    }
    out[at] = (w % 256) as u8;
    if count == 1 {
        return;
    }
    out[at + 1] = (w / 256 % 256) as u8;
    if count == 2 {
        return;
    }
    out[at + 2] = (w / 256 / 256 % 256) as u8;
    if count == 3 {
        return;
    }
    out[at + 3] = (w / 256 / 256 / 256 % 256) as u8;
}

// The low `size` bytes of `w` at `at`, word by word.
pub fn write_body(out: &mut [u8], at: usize, size: usize, w: Wide)
    requires { at + size ≤ length out.old }
    ensures { out.new ≡ sets out.old at (bytes_of size (value_of w)) }
{
    let mut rest = w;
    for i in 0..size / 4 {
        put_word(out, at + 4 * i, 4, rest.w0);
        rest = step::word_off(rest);
    }
    put_word(out, at + size / 4 * 4, size % 4, rest.w0);
}
