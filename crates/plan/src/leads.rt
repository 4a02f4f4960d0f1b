// The plans of coded numbers.
ghost use Rattle.std.specs.Prelude.{◌≡◌, [], ◌∷◌, ◌+◌, ◌≤◌, ltb};
ghost use Rattle.wide.specs.Number.{bytes_of};
ghost use Rattle.wide.specs.Words.{wide_end, value_of};
ghost use Rattle.wide.specs.Family.{behind, form};
ghost use Rattle.wide.specs.Members.{run, headed, integer};
ghost use Rattle.encode.specs.Encode.{float_marker};
ghost use Rattle.plan.specs.Inner.{marks_of, Plans, Formed};

use crate::form::Form;
use crate::marks::Marks;
use crate::plan::Plan;
use wide::Wide;

// A lead, and the low bytes of a number behind it.
pub fn lead_and(lead: u8, size: usize, value: Wide) -> Plan
    requires { size ≤ 16 }
    ensures { Plans result (lead ∷ bytes_of size (value_of value)) }
{
    Plan {
        marks: Marks::Bare,
        lead,
        size,
        value,
    }
}

// A byte alone.
pub fn alone(lead: u8) -> Plan
    ensures { Plans result (lead ∷ []) }
{
    lead_and(lead, 0, Wide::ZERO)
}

// Whether n is one of the `count` numbers from `from` on.
fn is_alone(count: usize, from: usize, n: usize) -> bool
    requires { (count ≤ 256) × (from ≤ 1) }
    ensures { result ≡ ltb (behind wide_end from n) count }
{
    if n < from {
        return false;
    }
    n - from < count
}

// A number with its marks before an unsigned variable integer; `count` bytes from `low` on are by themselves the numbers from `from` on.
pub fn headed(low: u8, count: usize, from: usize, marks: Marks, n: usize) -> Plan
    requires { (low + count ≤ 256) × (from ≤ 1) }
    ensures { Plans result (form (headed (run low count from) (marks_of marks)) n) }
{
    if is_alone(count, from, n) {
        return alone((low as usize + (n - from)) as u8);
    }
    let value = Wide::from(n);
    if n < 248 {
        return Plan {
            marks,
            lead: n as u8,
            size: 0,
            value,
        };
    }
    let rank = wide::size::rank_of(value, false);
    Plan {
        marks,
        lead: (248 + rank) as u8,
        size: wide::size::size_at(rank),
        value,
    }
}

// The marker of the shortest integer body.
fn integer_first(signed: bool) -> usize
    ensures { result ≡ (integer signed).first }
{
    if signed { 16 } else { 24 }
}

// The shortest form: two numbers, so that no plan is made twice.
pub fn integer_form(w: Wide, signed: bool) -> Form
    ensures { Formed result signed (value_of w) }
{
    if wide::integer::is_small(w, signed) {
        return Form {
            lead: ((w.w0 % 256 + 63) % 256) as u8,
            size: 0,
        };
    }
    let rank = wide::size::rank_of(w, signed);
    Form {
        lead: (integer_first(signed) + rank) as u8,
        size: wide::size::size_at(rank),
    }
}

// The plan of such a form.
pub fn formed(form: Form, w: Wide) -> Plan
    requires { form.size ≤ 16 }
    ensures { Plans result (form.lead ∷ bytes_of form.size (value_of w)) }
{
    lead_and(form.lead, form.size, w)
}

// A float's marker.
pub fn float_marker(size: u32) -> u8
    ensures { result ≡ float_marker size }
{
    match size {
        2 => 3,
        4 => 4,
        8 => 5,
        16 => 6,
        32 => 7,
        _ => 8,
    }
}
