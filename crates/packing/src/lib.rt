// How an answer of the library is handed to C: one u64, and for some answers words at the front of a lent list.
#![tactic(auto)]

mod pack;

ghost use Rattle.std.specs.Prelude.{◌≡◌, Err, ◌^◌, ◌≤◌, ◌<◌};
ghost use Rattle.rows.specs.Table.{limit};
ghost use Rattle.variable.specs.Answer.{read_used};
ghost use Rattle.packing.specs.Packed.{packed, packed_step, within, lent_for, list_after, resolved_words, packed_resolved, part_words, packed_part, read_words, packed_read};
ghost use Rattle.packing.specs.Inner.{LowStep, SmallResolved, SmallPart};

use numbers::{Beside, Numbered};
use payload::Part;
use resolve::Resolved;
use rows::{BadTable, Row};
use variable::{Got, Short};
use walker::{Standing, Unmoved};

// What measuring, filling, the check, the writer, or writing a variable integer answered.
pub fn answer<A: Beside + Copy>(a: A) -> u64
    requires { A.beside_of a < 2 ^ 56 }
    ensures { result ≡ packed (A.number_of a) (A.beside_of a) }
{
    pack::pack(a.number(), a.beside() as u64)
}

// What a step over n rows answered: the row in 24 bits, the bound in 32. More rows than the limit are a bad table.
pub fn step(n: usize, a: Result<Standing, Unmoved>) -> u64
    requires { n ≤ limit → LowStep a }
    ensures { result ≡ packed_step (within n a (Err Unmoved.BadTable)) }
{
    if Row::LIMIT < n {
        return pack::pack(12, 0);
    }
    let at = a.unwrap_or_default();
    pack::pack(a.number(), at.row as u64 * 4294967296 + at.bound as u64)
}

// Words into the front of a lent list, and the answer; or 13 and their number, where the list is shorter.
fn listed<const N: usize>(out: &mut [u32], words: [u32; N], answer: u64) -> u64
    requires { N < 2 ^ 56 }
    ensures value { result ≡ lent_for words.entry out.old answer }
    ensures out_after { out.new ≡ list_after words.entry out.old }
{
    if out.len() < N {
        return pack::pack(13, N as u64);
    }
    out[..N].copy_from_slice(&words);
    answer
}

// What resolving answered: row, bound and moves into the lent list.
pub fn resolved(out: &mut [u32], a: Result<Resolved, BadTable>) -> u64
    requires { SmallResolved a }
    ensures value { result ≡ packed_resolved a out.old }
    ensures out_after { out.new ≡ list_after (resolved_words a) out.old }
{
    let end = a.unwrap_or_default();
    let words = [end.row as u32, end.bound as u32, end.moves as u32];
    listed(out, words, pack::pack(a.number(), 0))
}

// A payload: its place and its size into the lent list.
pub fn part(out: &mut [u32], a: Part) -> u64
    requires { SmallPart a }
    ensures value { result ≡ packed_part a out.old }
    ensures out_after { out.new ≡ list_after (part_words a) out.old }
{
    listed(out, [a.place as u32, a.size as u32], pack::pack(0, 0))
}

// What reading a variable integer answered: its four words into the lent list, the bytes used beside the number.
pub fn read(out: &mut [u32], a: Result<Got, Short>) -> u64
    requires { read_used a < 2 ^ 56 }
    ensures value { result ≡ packed_read a out.old }
    ensures out_after { out.new ≡ list_after (read_words a) out.old }
{
    let got = a.unwrap_or_default();
    let w = got.value;
    let words = [w.w0, w.w1, w.w2, w.w3];
    listed(out, words, pack::pack(a.number(), got.used as u64))
}
