// A row's head, by its kind.
ghost use Rattle.wide.specs.Family.{form};
ghost use Rattle.encode.specs.Encode.{holder_count};
ghost use Rattle.plan.specs.Inner.{Plans, own_head};

use crate::leads::{alone, float_marker, formed, headed, integer_form, lead_and};
use crate::marks::Marks;
use crate::plan::Plan;
use format::Holder;
use rows::Row;
use rules::{Kind, wide_of};
use wide::Wide;

// A holder's count.
fn count_head(holder: Holder, count: usize) -> Plan
    ensures { Plans result (form (holder_count holder) count) }
{
    match holder {
        Holder::Array => headed(160, 16, 1, Marks::One(9), count),
        Holder::Record => headed(176, 8, 1, Marks::One(10), count),
        Holder::Map => headed(184, 8, 1, Marks::One(11), count),
    }
}

// What stands before a row's payload, or before its children, which take `size` bytes.
pub fn head_of(w: Row, size: usize) -> Plan
    ensures { Plans result (own_head w size) }
{
    match rules::named(w) {
        Kind::Constant => alone((w.kind - 1) as u8),
        Kind::Small => formed(integer_form(wide_of(w), true), wide_of(w)),
        Kind::Signed => formed(integer_form(wide_of(w), true), wide_of(w)),
        Kind::Unsigned => formed(integer_form(wide_of(w), false), wide_of(w)),
        Kind::Float => alone(float_marker(w.w1)),
        Kind::Text => headed(128, 32, 1, Marks::One(8), rows::number(w.w1)),
        Kind::Holds { holder } => count_head(holder, rows::number(w.w0)),
        Kind::Binary => headed(0, 0, 0, Marks::One(12), rows::number(w.w1)),
        Kind::Char => lead_and(192, 3, Wide::from(rows::number(w.w0))),
        Kind::Reference => headed(193, 62, 0, Marks::One(255), rows::number(w.w0)),
        Kind::Declaration => headed(0, 0, 0, Marks::Two(13, 13), rows::number(w.w0)),
        Kind::Whole => headed(0, 0, 0, Marks::Two(13, 0), size),
        Kind::Damaged => headed(0, 0, 0, Marks::Two(13, 0), rows::number(w.w1)),
        Kind::Key => headed(0, 0, 0, Marks::Bare, rows::number(w.w1)),
        Kind::Unknown => alone(14),
    }
}
