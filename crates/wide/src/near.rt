// Numbers near 0, which a byte alone can be. Each is told by how far it stands behind -below.
ghost use Rattle.std.specs.Prelude.{◌≡◌, ◌&&◌, ◌+◌, ◌-◌, ◌%◌, ◌≤◌, ltb, eqb};
ghost use Rattle.wide.specs.Words.{wide_end, value_of, wide_of};
ghost use Rattle.wide.specs.Family.{behind};

use crate::wide::Wide;

// Whether the three high words are all that word.
fn above(w: Wide, word: u32) -> bool
    ensures { result ≡ (eqb w.w1 word && (eqb w.w2 word && eqb w.w3 word)) }
{
    w.w1 == word && w.w2 == word && w.w3 == word
}

// Whether the number is one of the last `below` before 0 or of the first `up` from 0 on. The low word is asked first: it alone tells nearly
// every number that is not.
pub fn is_near(w: Wide, below: u32, up: u32) -> bool
    requires { (below ≤ 256) × (up ≤ 256) }
    ensures { result ≡ ltb (behind wide_end (wide_end - below) (value_of w)) (below + up) }
{
    if w.w0 < up {
        return above(w, 0);
    }
    if 4294967295 - w.w0 < below {
        return above(w, 4294967295);
    }
    false
}

// The number that stands `far` behind -below.
pub fn near(below: u32, far: u32) -> Wide
    requires { (below ≤ 256) × (far ≤ 256) }
    ensures { result ≡ wide_of ((wide_end - below + far) % wide_end) }
{
    if far < below {
        return Wide {
            w0: 4294967295 - (below - far - 1),
            ..Wide::ONES
        };
    }
    Wide {
        w0: far - below,
        ..Wide::ZERO
    }
}
