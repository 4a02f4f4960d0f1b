// Writes the documents of many tables. Each stands behind twelve bytes: how many words it has (two bytes), n (four bytes), how many bytes of
// data there are (two bytes) and the room of the output (four bytes), low byte first. The words follow, four bytes each, and then the data.
#![tactic(auto)]

use feed::front::Front;
use line::input::fills;
use line::pairs::Pairs;
use numbers::{Beside, Numbered};
use std::io;
use std::io::{Read, Write};
use writer::Unwritten;

// What an output holds before anything is written to it: 165, and then always 7 more, so that bytes left alone are known.
fn mark(out: &mut [u8]) {
    let mut b = 165u8;
    for slot in out.iter_mut() {
        *slot = b;
        b = b.wrapping_add(7);
    }
}

// The checksum Adler-32 of RFC 1950.
fn checksum(s: &[u8]) -> u64 {
    let mut a = 1;
    let mut b = 0;
    for c in s {
        a = (a + u64::from(*c)) % 65521;
        b = (b + a) % 65521;
    }
    65536 * b + a
}

// The paper's number, the number beside it, the checksum of the whole output, and its first bytes.
fn show<W: Write>(r: Result<usize, Unwritten>, out: &[u8], output: &mut W) -> io::Result<()> {
    let first = Pairs(&out[..out.len().min(64)]);
    let text = format_args!("{} {} {}:{first}", r.number(), r.beside(), checksum(out));
    line::put(&mut [0; 256], text, output)
}

// One table, or false at the end of the input, or where a table has more than 4,096 words or there is no such room.
fn one<R: Read, W: Write>(input: &mut R, output: &mut W) -> io::Result<bool> {
    let Some(front) = Front::read(input)? else {
        return Ok(false);
    };
    let mut room = [0; 4];
    if !fills(input, &mut room)? {
        return Ok(false);
    }
    let mut all = [0; 163840];
    let Some(out) = all.get_mut(..u32::from_le_bytes(room) as usize) else {
        return Ok(false);
    };
    let mut buf = [0; 81920];
    let mut table = [0; 4096];
    let Some((words, data)) = front.rest(0, input, &mut buf, &mut table)? else {
        return Ok(false);
    };
    mark(out);
    let r = writer::write(words, front.n as usize, data, out);
    show(r, out, output)?;
    Ok(true)
}

fn main(rt: HostRuntime) -> io::Result<()> {
    line::cases::each(&mut rt.stdin(), &mut rt.stdout(), one)
}
