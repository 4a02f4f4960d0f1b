// Whether the words of a row are right.
ghost use Rattle.std.specs.Prelude.{◌≡◌};
ghost use Rattle.wide.specs.Words.{words};
ghost use Rattle.rows.specs.Table.{own_of};
ghost use Rattle.format.specs.Head.{float_sizes};
ghost use Rattle.rules.specs.Shape.{blank, inside, one_of, span, spelt};

use rows::Row;
use wide::Wide;

// All four are 0; a caller gives 0 for a word that its kind names.
#[tactic(auto, unfolding(crate::specs::Shape::blank))]
pub fn blank(a: u32, b: u32, c: u32, d: u32) -> bool
    ensures { result ≡ blank a b c d }
{
    a == 0 && b == 0 && c == 0 && d == 0
}

// The sum cannot wrap: both are below 2^32.
#[tactic(auto, unfolding(crate::specs::Shape::inside))]
pub fn inside(s: &[u8], place: u32, size: u32) -> bool
    ensures { result ≡ inside s.now place size }
{
    rows::number(place) + rows::number(size) <= s.len()
}

#[tactic(auto, unfolding(crate::specs::Shape::one_of))]
pub fn is_float_size(n: u32) -> bool
    ensures { result ≡ one_of float_sizes n }
{
    matches!(n, 2 | 4 | 8 | 16 | 32)
}

// A place and a size in the data.
#[tactic(auto, unfolding(crate::specs::Shape::span))]
pub fn span(s: &[u8], w: Row) -> bool
    ensures { result ≡ span s.now (own_of w) }
{
    blank(0, 0, w.w2, w.w3) && inside(s, w.w0, w.w1)
}

// A text, or a key.
#[tactic(auto, unfolding(crate::specs::Shape::spelt))]
pub fn spelt(s: &[u8], w: Row) -> bool
    ensures { result ≡ spelt s.now (own_of w) }
{
    if span(s, w) {
        let from = rows::number(w.w0);
        return text::is_well_formed(&s[from..from + rows::number(w.w1)]);
    }
    false
}

// The number of a row's four words. Not a From: neither type is of this crate, and rows knows no Wide.
pub fn wide_of(w: Row) -> Wide
    ensures { result ≡ words w.w0 w.w1 w.w2 w.w3 }
{
    Wide {
        w0: w.w0,
        w1: w.w1,
        w2: w.w2,
        w3: w.w3,
    }
}
