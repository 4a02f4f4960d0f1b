// Walks over many tables. Each stands behind ten bytes: how many words it has (two bytes), n (four bytes), how many bytes of data there are
// (two bytes) and how many asks (two bytes), low byte first. The words follow, four bytes each, then the data, and then the asks, nine bytes
// each: what is asked, a row (four bytes) and a bound (four bytes).
#![tactic(auto)]

use feed::front::Front;
use line::input::fills;
use line::pairs::Pairs;
use numbers::Numbered;
use resolve::Resolved;
use rows::BadTable;
use std::io;
use std::io::{Read, Write};
use walker::{Standing, Unmoved};

// Number, row and bound.
fn show_step<W: Write>(s: Result<Standing, Unmoved>, output: &mut W) -> io::Result<()> {
    let at = s.unwrap_or_default();
    let numbers = format_args!("{} {} {}", s.number(), at.row, at.bound);
    line::put(&mut [0; 64], numbers, output)
}

// Number, row, bound and moves.
fn show_resolved<W: Write>(r: Result<Resolved, BadTable>, output: &mut W) -> io::Result<()> {
    let at = r.unwrap_or_default();
    let numbers = format_args!("{} {} {} {}", r.number(), at.row, at.bound, at.moves);
    line::put(&mut [0; 96], numbers, output)
}

// The size and each byte, up to the first that has no room in the line, 3 * 5462 > 16384.
fn show_payload<W: Write>(bytes: &[u8], output: &mut W) -> io::Result<()> {
    let first = Pairs(&bytes[..bytes.len().min(5462)]);
    let text = format_args!("{}{first}", bytes.len());
    line::put(&mut [0; 16384], text, output)
}

// A table that is walked over, and its data.
#[derive(Clone, Copy, Debug)]
struct Table<'a> {
    words: &'a [u32],
    n: usize,
    data: &'a [u8],
}

impl Table<'_> {
    // Where an ask is made from. The walker itself says where a walk starts.
    fn standing(self, row: usize, bound: usize) -> Standing {
        if row == 0 && bound == self.n {
            return walker::start(self.n);
        }
        Standing { row, bound }
    }

    // One ask: 0 in, 1 on, 2 along, 3 resolve, 4 payload. What is asked by another number has no answer. No enum: the number is read and used
    // here alone.
    fn ask<W: Write>(self, op: u8, row: usize, bound: usize, output: &mut W) -> io::Result<()> {
        let at = self.standing(row, bound);
        match op {
            0 => show_step(walker::step_in(self.words, self.n, at), output),
            1 => show_step(walker::step_on(self.words, self.n, at), output),
            2 => show_step(walker::step_along(self.words, self.n, at), output),
            3 => show_resolved(resolve::resolve(self.words, self.n, row), output),
            4 => show_payload(payload::payload(self.words, row, self.data), output),
            _ => Ok(()),
        }
    }
}

// One table, or false at the end of the input, or where a table has more than 256 rows.
fn one<R: Read, W: Write>(input: &mut R, output: &mut W) -> io::Result<bool> {
    let mut bytes = [0; 10];
    if !fills(input, &mut bytes)? {
        return Ok(false);
    }
    let [a, b, c, d, e, f, g, h, low, high] = bytes;
    let front = Front::from([a, b, c, d, e, f, g, h]);
    let size = 9 * u32::from(u16::from_le_bytes([low, high]));
    let mut buf = [0; 65536];
    let mut table = [0; 1536];
    let Some((words, rest)) = front.rest(size, input, &mut buf, &mut table)? else {
        return Ok(false);
    };
    let (data, asks) = rest.split_at(usize::from(front.size));
    let n = front.n as usize;
    let table = Table { words, n, data };
    for a in asks.chunks_exact(9) {
        let row = u32::from_le_bytes([a[1], a[2], a[3], a[4]]);
        let bound = u32::from_le_bytes([a[5], a[6], a[7], a[8]]);
        table.ask(a[0], row as usize, bound as usize, output)?;
    }
    Ok(true)
}

fn main(rt: HostRuntime) -> io::Result<()> {
    line::cases::each(&mut rt.stdin(), &mut rt.stdout(), one)
}
