// The row rules, as far as a row's own words go.
#![tactic(auto)]

mod judge;
mod kind;
mod shape;
mod words;

ghost use Rattle.std.specs.Prelude.{◌≡◌};
ghost use Rattle.rows.specs.Table.{own_of};
ghost use Rattle.rules.specs.Shape.{shape_of};

pub use judge::named;
pub use kind::Kind;
use rows::Row;
pub use shape::Shape;
pub use words::{spelt, wide_of};

// What the words of a row make it at a value position, over the data s.
#[tactic(auto, unfolding(crate::specs::Shape::shape_of))]
pub fn shape_of(s: &[u8], w: Row) -> Shape
    ensures { result ≡ shape_of s.now (own_of w) }
{
    let kind = judge::named(w);
    if judge::fits(s, w, kind) {
        return judge::shape_for(kind);
    }
    Shape::Bad
}
