// Whether bytes are text by RFC 3629, and where they first are not. Not by std's from_utf8: the paper asks to see the RFC's ranges.
#![tactic(auto)]

mod ill_formed;
mod lead;
mod lines;
mod plain;

ghost use Rattle.std.specs.Prelude.{◌≡◌};
ghost use Rattle.text.specs.Check.{text_of, well_formed};

pub use ill_formed::IllFormed;
use lines::{TAIL_HIGH, TAIL_LOW, lead_of, within};
use plain::behind_plain;

// The outer loop goes over sequences, the inner one over the continuation bytes of one: low and high are the range of the next of them.
pub fn check(s: &[u8]) -> Result<(), IllFormed>
    ensures { result ≡ text_of s.now }
{
    let mut first = 0;
    // The paper asks for this form: a loop in a loop, "left by a label or yielding the offset by break".
    let offset = 'sequences: loop {
        first = behind_plain(s, first); // for speed alone
        if s.len() <= first {
            return Ok(());
        }
        let Some(lead) = lead_of(s[first]) else {
            break first;
        };
        let second = first + 1;
        if s.len() - second < lead.left {
            break first;
        }
        let end = second + lead.left;
        let (mut low, mut high) = (lead.low, lead.high);
        for at in second..end {
            if !within(s[at], low, high) {
                break 'sequences first;
            }
            low = TAIL_LOW;
            high = TAIL_HIGH;
        }
        first = end;
    };
    Err(IllFormed { offset })
}

// Whether no sequence is ill formed.
pub fn is_well_formed(s: &[u8]) -> bool
    ensures { result ≡ well_formed (text_of s.now) }
{
    check(s).is_ok()
}
