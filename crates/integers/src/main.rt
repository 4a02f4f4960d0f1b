// Reads byte strings, each behind a byte of length, and shows each as an unsigned and as a signed variable integer: the four words and the
// bytes used, or the refusal; then the shortest form, and what writing it into one byte less answers.
#![tactic(auto)]

use line::input::read_full;
use line::pairs::Pairs;
use numbers::{Beside, Numbered};
use std::fmt::Display;
use std::io;
use std::io::Write;
use variable::{Got, NoRoom, Short};
use wide::Wide;

// What an output holds before anything is written to it.
const FRESH: u8 = 85;

// A line of the program. What does not fit is left out.
fn put<W: Write>(text: impl Display + Drop, output: &mut W) -> io::Result<()> {
    line::put(&mut [0; 256], text, output)
}

// The bytes of a string that have room in a line, 1 + 3 * 85 = 256: what does not fit need not be put into pairs.
fn pairs(s: &[u8]) -> Pairs<'_> {
    Pairs(&s[..s.len().min(85)])
}

// A word where a byte that has to stay does not.
fn touched(rest: &[u8]) -> &'static str {
    if rest.iter().all(|b| *b == FRESH) {
        ""
    } else {
        " touched"
    }
}

// The shortest form, in the first `used` bytes of an output.
fn show_form<W: Write>(form: &[u8], used: usize, output: &mut W) -> io::Result<()> {
    let Some((form, rest)) = form.split_at_checked(used) else {
        return put("  -> too long", output);
    };
    put(format_args!("  ->{}{}", Pairs(form), touched(rest)), output)
}

// The shortest form, and what one byte less answers.
fn show_written<W: Write, F>(w: Wide, write: F, output: &mut W) -> io::Result<()>
where
    F: Fn(&mut [u8], Wide) -> Result<usize, NoRoom>,
    requires { F.IsAlwaysCallable write }
{
    let mut form = [FRESH; 20];
    let used = write(&mut form, w).beside();
    show_form(&form, used, output)?;
    let mut small = [FRESH; 20];
    let Some(room) = used.checked_sub(1).and_then(|n| small.get_mut(..n)) else {
        return Ok(());
    };
    let r = write(room, w);
    let answer = format_args!("  {} {}{}", r.number(), r.beside(), touched(&small));
    put(answer, output)
}

// What stands at the front of `s`: an integer of the kind called `name`, or nothing whole.
fn show<W: Write, F>(
    name: &str,
    s: &[u8],
    r: Result<Got, Short>,
    write: F,
    output: &mut W,
) -> io::Result<()>
where
    F: Fn(&mut [u8], Wide) -> Result<usize, NoRoom>,
    requires { F.IsAlwaysCallable write }
{
    let Ok(Got { value: w, used }) = r else {
        let refusal = format_args!("{name}{}: refused {}", pairs(s), r.number());
        return put(refusal, output);
    };
    let words = format_args!("{} {} {} {}", w.w0, w.w1, w.w2, w.w3);
    put(format_args!("{name}{}: {words} {used}", pairs(s)), output)?;
    show_written(w, write, output)
}

// Each string of the input in turn.
fn show_all<W: Write>(input: &[u8], output: &mut W) -> io::Result<()> {
    let mut rest = input;
    while let Some((size, behind)) = rest.split_first() {
        let Some((s, next)) = behind.split_at_checked(usize::from(*size)) else {
            return Ok(());
        };
        let unsigned = variable::read_unsigned(s);
        show("u", s, unsigned, variable::write_unsigned, output)?;
        let signed = variable::read_signed(s);
        show("s", s, signed, variable::write_signed, output)?;
        rest = next;
    }
    Ok(())
}

fn main(rt: HostRuntime) -> io::Result<()> {
    let mut input = [0; 65536];
    let n = read_full(&mut rt.stdin(), &mut input)?;
    show_all(&input[..n], &mut rt.stdout())
}
