// The listing of a document, as the paper's program prints it.
#![tactic(auto)]

use line::input::read_full;
use numbers::{Beside, Numbered};
use rows::Row;
use std::io;
use std::io::{Read, Write};

fn refused<W: Write>(why: impl Beside + Copy, output: &mut W) -> io::Result<()> {
    let refusal = format_args!("refused {} {}", why.number(), why.beside());
    line::put(&mut [0; 64], refusal, output)
}

// The six numbers of a row.
fn row<W: Write>(r: Row, output: &mut W) -> io::Result<()> {
    let numbers = format_args!("{} {} {} {} {} {}", r.kind, r.end, r.w0, r.w1, r.w2, r.w3);
    line::put(&mut [0; 128], numbers, output)
}

// The first n rows, as many of them as the table has.
fn table_rows<W: Write>(table: &[u32], n: usize, output: &mut W) -> io::Result<()> {
    for i in 0..n.min(rows::lent(table)) {
        row(rows::row_at(table, i), output)?;
    }
    Ok(())
}

// Measures a document, fills 1,024 rows from it and prints them, or why it is refused.
pub fn list<W: Write>(document: &[u8], output: &mut W) -> io::Result<()> {
    if let Err(why) = measure::measure(document) {
        return refused(why, output);
    }
    let mut table = [0; 6144];
    match reader::fill(document, &mut table) {
        Ok(n) => {
            line::put(&mut [0; 64], format_args!("read {n}"), output)?;
            table_rows(&table, n, output)
        }
        Err(why) => refused(why, output),
    }
}

// The paper's listing program: a document of up to 16,384 bytes from the input.
pub fn list_input<R: Read, W: Write>(input: &mut R, output: &mut W) -> io::Result<()> {
    let mut document = [0; 16385];
    let n = read_full(input, &mut document)?;
    if 16384 < n {
        return output.write_all(b"input too long\n");
    }
    list(&document[..n], output)
}
