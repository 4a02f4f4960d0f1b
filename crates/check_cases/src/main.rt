// Checks many tables. Each stands behind eight bytes: how many words it has (two bytes), n (four bytes) and how many bytes of data there are
// (two bytes), low byte first. The words follow, four bytes each, and then the data.
#![tactic(auto)]

use checker::BadTable;
use feed::front::Front;
use numbers::{Beside, Numbered};
use std::io;
use std::io::{Read, Write};

// The paper's number, and the number beside it.
fn show<W: Write>(r: Result<usize, BadTable>, output: &mut W) -> io::Result<()> {
    let numbers = format_args!("{} {}", r.number(), r.beside());
    line::put(&mut [0; 64], numbers, output)
}

// One table, or false at the end of the input, or where a table has more than 256 rows.
fn one<R: Read, W: Write>(input: &mut R, output: &mut W) -> io::Result<bool> {
    let Some(front) = Front::read(input)? else {
        return Ok(false);
    };
    let mut buf = [0; 65536];
    let mut table = [0; 1536];
    let Some((words, data)) = front.rest(0, input, &mut buf, &mut table)? else {
        return Ok(false);
    };
    show(checker::check(words, front.n as usize, data), output)?;
    Ok(true)
}

fn main(rt: HostRuntime) -> io::Result<()> {
    line::cases::each(&mut rt.stdin(), &mut rt.stdout(), one)
}
