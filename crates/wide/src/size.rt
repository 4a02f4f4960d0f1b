// Which size is the shortest.
ghost use Rattle.std.specs.Prelude.{◌≡◌, false, cond, leb, ◌≤◌, ◌<◌};
ghost use Rattle.wide.specs.Words.{value_of};
ghost use Rattle.wide.specs.Body.{size_at, rank};

use crate::step;
use crate::wide::Wide;

// The size at a place. A list would be laid on the stack at each call.
pub fn size_at(j: usize) -> usize
    requires { j < 8 }
    ensures { result ≡ size_at j }
{
    if j < 4 {
        return j + 1;
    }
    if j < 6 {
        return 2 * j - 2;
    }
    4 * j - 12
}

// 1 where n is not below the limit.
fn passed(n: usize, limit: usize) -> usize
    ensures value { result ≡ cond (leb limit n) 1 0 }
    ensures upper_bound { result ≤ 1 }
{
    usize::from(limit <= n)
}

// The place of the shortest unsigned body of 64 bits at most: how many sizes are too short, since a branch for each would be guessed wrong.
fn rank_low(n: usize) -> usize
    ensures { result ≡ rank false n }
{
    passed(n, 256)
        + passed(n, 65536)
        + passed(n, 16777216)
        + passed(n, 4294967296)
        + passed(n, 281474976710656)
}

// The place of the shortest unsigned body.
fn rank_unsigned(w: Wide) -> usize
    ensures { result ≡ rank false (value_of w) }
{
    if w.w3 == 0 && w.w2 == 0 {
        return rank_low(w.w0 as usize + 4294967296 * w.w1 as usize);
    }
    6 + passed(w.w3 as usize, 1)
}

// The place of the shortest body: a signed number needs one bit more than its size, or than that of its complement.
pub fn rank_of(w: Wide, signed: bool) -> usize
    ensures { result ≡ rank signed (value_of w) }
{
    if signed {
        return rank_unsigned(step::doubled(step::folded(w)));
    }
    rank_unsigned(w)
}
