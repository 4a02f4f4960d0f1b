// Numbers and tables of words from the bytes that a program was given, low byte first.
#![tactic(auto)]

pub mod front;

ghost use Rattle.std.specs.Prelude.{◌≡◌, ◌+◌, ◌*◌, ◌^◌, ◌≤◌, ◌<◌, length, take, drop};
ghost use Rattle.std.proofs.lemmas.List.Edits.{sets};
ghost use Rattle.wide.specs.Number.{number};
ghost use Rattle.feed.specs.Words.{words_in};

// A number of 1 to 4 bytes, from `at` on.
pub fn number(s: &[u8], at: usize, size: usize) -> u32
    requires { (1 ≤ size) × (size ≤ 4) × (at + size ≤ length s.now) }
    ensures value { result ≡ number (take size (drop at s.now)) }
    ensures upper_bound { result < 256 ^ size }
{
    wide::body::read_body(s, at, size, false).w0
}

// The first words of a table.
pub fn fill(table: &mut [u32], words: usize, s: &[u8])
    requires words_in_bounds { words ≤ length table.old }
    requires words_in_bounds_2 { 4 * words ≤ length s.now }
    ensures { table.new ≡ sets table.old 0 (words_in words s.now) }
{
    for i in 0..words {
        table[i] = number(s, 4 * i, 4);
    }
}
