// The paper's table of kinds.
ghost use Rattle.std.specs.Prelude.{◌≡◌};
ghost use Rattle.rows.specs.Table.{own_of};
ghost use Rattle.rules.specs.Shape.{named, fits, shape_for};

use crate::kind::Kind;
use crate::shape::Shape;
use crate::words::{blank, inside, is_float_size, span, spelt, wide_of};
use format::Holder;
use rows::Row;

// What a row's number of kind names.
#[tactic(auto, unfolding(crate::specs::Shape::named))]
pub fn named(w: Row) -> Kind
    ensures { result ≡ named (own_of w) }
{
    match w.kind {
        Row::FALSE | Row::TRUE | Row::NONE => Kind::Constant,
        Row::SMALL => Kind::Small,
        Row::SIGNED => Kind::Signed,
        Row::UNSIGNED => Kind::Unsigned,
        Row::FLOAT => Kind::Float,
        Row::TEXT => Kind::Text,
        Row::ARRAY => Kind::Holds {
            holder: Holder::Array,
        },
        Row::RECORD => Kind::Holds {
            holder: Holder::Record,
        },
        Row::MAP => Kind::Holds {
            holder: Holder::Map,
        },
        Row::BINARY => Kind::Binary,
        Row::CHAR => Kind::Char,
        Row::REFERENCE => Kind::Reference,
        Row::DECLARATION => Kind::Declaration,
        Row::FOREIGN if w.w2 == 0 => Kind::Whole,
        Row::FOREIGN => Kind::Damaged,
        Row::KEY => Kind::Key,
        _ => Kind::Unknown,
    }
}

// Whether a row's words are right for its kind.
#[tactic(auto, unfolding(crate::specs::Shape::fits))]
pub fn fits(s: &[u8], w: Row, kind: Kind) -> bool
    ensures { result ≡ fits s.now (own_of w) kind }
{
    match kind {
        Kind::Constant | Kind::Whole => blank(w.w0, w.w1, w.w2, w.w3),
        Kind::Small => wide::integer::is_small(wide_of(w), true),
        Kind::Signed => !wide::integer::is_small(wide_of(w), true),
        Kind::Unsigned => !wide::integer::is_small(wide_of(w), false),
        Kind::Float => span(s, w) && is_float_size(w.w1),
        Kind::Text | Kind::Key => spelt(s, w),
        Kind::Holds { holder: _ } => blank(0, w.w1, w.w2, w.w3),
        Kind::Binary => span(s, w),
        Kind::Char => blank(0, w.w1, w.w2, w.w3) && heads::is_codepoint(rows::number(w.w0)),
        Kind::Reference => blank(0, 0, w.w2, w.w3),
        Kind::Declaration => blank(0, w.w1, w.w2, w.w3) && 0 < w.w0,
        Kind::Damaged => blank(0, 0, 0, w.w3) && inside(s, w.w0, w.w1),
        Kind::Unknown => false,
    }
}

// What such a row is, where they are.
pub fn shape_for(kind: Kind) -> Shape
    ensures { result ≡ shape_for kind }
{
    match kind {
        Kind::Constant
        | Kind::Small
        | Kind::Signed
        | Kind::Unsigned
        | Kind::Float
        | Kind::Text
        | Kind::Binary
        | Kind::Char => Shape::Leaf,
        Kind::Holds { holder } => Shape::Hold { holder },
        Kind::Reference => Shape::Refer,
        Kind::Declaration => Shape::Declare,
        Kind::Whole => Shape::Whole,
        Kind::Damaged => Shape::Damaged,
        Kind::Key | Kind::Unknown => Shape::Bad,
    }
}
