// Lists many documents, each behind two bytes that are its length, low byte first.
#![tactic(auto)]

use line::input::fills;
use std::io;
use std::io::{Read, Write};

// One document, or false at the end of the input.
fn one<R: Read, W: Write>(input: &mut R, output: &mut W) -> io::Result<bool> {
    let mut length = [0; 2];
    if !fills(input, &mut length)? {
        return Ok(false);
    }
    let size = usize::from(u16::from_le_bytes(length));
    let mut document = [0; 65536];
    let part = &mut document[..size];
    if !fills(input, part)? {
        return Ok(false);
    }
    lister::list(part, output)?;
    Ok(true)
}

fn main(rt: HostRuntime) -> io::Result<()> {
    line::cases::each(&mut rt.stdin(), &mut rt.stdout(), one)
}
