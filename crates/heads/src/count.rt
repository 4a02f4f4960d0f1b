// Lengths, counts and numbers.
ghost use Rattle.std.specs.Prelude.{◌≡◌, ◌≤◌, ◌<◌, length, leb, IfOk};
ghost use Rattle.wide.specs.Words.{value_of};
ghost use Rattle.wide.specs.Members.{key_length};
ghost use Rattle.rows.specs.Table.{limit};
ghost use Rattle.format.specs.Head.{count_at};

use format::{Count, Refusal};
use rows::Row;
use wide::Wide;

// A byte, to reckon with. `usize::from` alone would not say in its callers' proofs that it is below 256.
pub fn index(b: u8) -> usize
    ensures { (result ≡ b) × (result < 256) }
{
    usize::from(b)
}

// Whether a number of 128 bits is within the limit: of 24 bits, which no TryFrom asks.
fn within(w: Wide) -> bool
    ensures { result ≡ leb (value_of w) limit }
{
    if w.w3 != 0 || w.w2 != 0 || w.w1 != 0 {
        return false;
    }
    Row::within_limit(rows::number(w.w0))
}

// The longer forms, too.
fn long_length(s: &[u8], at: usize, stop: usize) -> Result<Count, Refusal>
    requires { (at ≤ stop) × (stop ≤ length s.now) }
    ensures { result ≡ count_at key_length s.now at stop }
{
    let r = variable::read_unsigned(&s[at..stop]);
    match r {
        Ok(got) => {
            if within(got.value) {
                return Ok(Count {
                    value: rows::number(got.value.w0),
                    next: at + got.used,
                });
            }
            Err(Refusal::Huge)
        }
        Err(_) => Err(Refusal::Short),
    }
}

// A length, count or number at `at`, with no marker; one byte says most of them.
pub fn length_at(s: &[u8], at: usize, stop: usize) -> Result<Count, Refusal>
    requires { (at ≤ stop) × (stop ≤ length s.now) }
    ensures value { result ≡ count_at key_length s.now at stop }
    ensures within { IfOk result (λ c. c.next ≤ stop) }
{
    if stop <= at {
        return Err(Refusal::Short);
    }
    let b = index(s[at]);
    if b < 248 {
        return Ok(Count {
            value: b,
            next: at + 1,
        });
    }
    long_length(s, at, stop)
}
