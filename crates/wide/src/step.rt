// Steps on four words.
ghost use Rattle.std.specs.Prelude.{◌≡◌, cond, ltb, ◌+◌, ◌-◌, ◌*◌, ◌/◌, ◌%◌};
ghost use Rattle.wide.specs.Words.{wide_end, words, value_of, wide_of};
ghost use Rattle.wide.specs.Body.{extended};

use crate::wide::Wide;

// One more byte at the low end; the highest falls out.
pub fn shift_in(w: Wide, b: u8) -> Wide
    ensures { result ≡ wide_of (b + 256 * value_of w) }
{
    Wide {
        w0: w.w0 % 16777216 * 256 + b as u32,
        w1: w.w1 % 16777216 * 256 + w.w0 / 16777216,
        w2: w.w2 % 16777216 * 256 + w.w1 / 16777216,
        w3: w.w3 % 16777216 * 256 + w.w2 / 16777216,
    }
}

// The lowest word off.
pub fn word_off(w: Wide) -> Wide
    ensures { result ≡ words w.w1 w.w2 w.w3 0 }
{
    Wide {
        w0: w.w1,
        w1: w.w2,
        w2: w.w3,
        w3: 0,
    }
}

// A body of no bytes: ones in every place, or none.
pub fn filled(ones: bool) -> Wide
    ensures { result ≡ wide_of (extended ones 0 0) }
{
    if ones { Wide::ONES } else { Wide::ZERO }
}

// Twice the number; the highest bit falls out.
pub fn doubled(w: Wide) -> Wide
    ensures { result ≡ wide_of (2 * value_of w) }
{
    Wide {
        w0: w.w0 % 2147483648 * 2,
        w1: w.w1 % 2147483648 * 2 + w.w0 / 2147483648,
        w2: w.w2 % 2147483648 * 2 + w.w1 / 2147483648,
        w3: w.w3 % 2147483648 * 2 + w.w2 / 2147483648,
    }
}

// A word, every bit of it turned where `top` has its highest bit.
fn turned(x: u32, top: u32) -> u32
    ensures { result ≡ cond (ltb top 2147483648) x (4294967295 - x) }
{
    if top < 2147483648 { x } else { !x }
}

// The number, or its complement where its highest bit is set: word by word, so that no branch depends on the sign.
pub fn folded(w: Wide) -> Wide
    ensures { result ≡ cond (ltb w.w3 2147483648) w (wide_of (wide_end - 1 - value_of w)) }
{
    Wide {
        w0: turned(w.w0, w.w3),
        w1: turned(w.w1, w.w3),
        w2: turned(w.w2, w.w3),
        w3: turned(w.w3, w.w3),
    }
}
