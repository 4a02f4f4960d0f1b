// Value checking calls child checking, which calls value checking again, the levels left falling at each round.
ghost use Rattle.std.specs.Prelude.{◌≡◌, [], ◌+◌, ◌≤◌, ◌<◌, length};
ghost use Rattle.rows.specs.Table.{own_of, lent, limit};
ghost use Rattle.rows.specs.Kinds.{declaration_own};
ghost use Rattle.registry.specs.Inner.{chain, first_in, Based};
ghost use Rattle.format.specs.declared.head.Children.TheVariants.{Entries};
ghost use Rattle.format.specs.Value.{in_force, is_key};
ghost use Rattle.rules.specs.Shape.{shape_of};
ghost use Rattle.rules.specs.Grow.{item, grows, over_entries, by_shape, grow};
ghost use Rattle.checker.specs.Inner.{EntriesBefore, EntriesBeforeChild, BasedForChild, extent_of, extent_all};

use crate::one::{check_damaged, check_key, check_reference, ends_at, stands_alone};
use format::Children;
use rows::Row;
use rules::Shape;

// One value position, from its own row on; `levels` are left, its own with them, and the `around` entries in force have that base.
#[cycle(checking)]
pub fn check_value(
    table: &[u32],
    n: usize,
    s: &[u8],
    row: usize,
    levels: usize,
    base: usize,
    around: usize,
) -> Option<usize>
    requires { EntriesBefore table.now n (first_in base) around row × Based table.now base around × (length s.now ≤ limit) }
    ensures { result ≡ extent_of (grow table.now n s.now levels (chain table.now (first_in base) around) row) }
{
    if levels == 0 || n <= row {
        return None;
    }
    let w = rows::row_at(table, row);
    let shape = rules::shape_of(s, w);
    let g = check_row(table, n, s, row, levels - 1, base, around, w, shape);
    ends_at(w.end, g)
}

// A row by its shape; below it `levels` are left.
#[cycle(checking)]
fn check_row(
    table: &[u32],
    n: usize,
    s: &[u8],
    row: usize,
    levels: usize,
    base: usize,
    around: usize,
    w: Row,
    shape: Shape,
) -> Option<usize>
    requires entries_before { EntriesBefore table.now n (first_in base) around row × Based table.now base around × (row < n) × (length s.now ≤ limit) }
    requires shape_value { shape ≡ shape_of s.now (own_of w) }
    ensures { result ≡ extent_of (by_shape table.now n s.now (grow table.now n s.now levels) levels (chain table.now (first_in base) around) row (own_of w) shape) }
{
    match shape {
        Shape::Bad => None,
        Shape::Leaf => Some(row + 1),
        Shape::Refer => check_reference(table, row, base, around, w),
        Shape::Hold { holder } => {
            let count = holder.children(rows::number(w.w0));
            let c = holder.reading();
            check_children(table, n, s, row + 1, levels, base, around, c, count)
        }
        Shape::Declare => { check_declared(table, n, s, row + 1, levels, rows::number(w.w0)) }
        Shape::Whole => {
            let under = row + 1;
            let inside = format::in_foreign(around);
            check_value(table, n, s, under, levels, base, inside)
        }
        Shape::Damaged => check_damaged(s, row, levels, around, w),
    }
}

// A declaration's entries from `row` on, and its value behind them.
#[cycle(checking)]
fn check_declared(
    table: &[u32],
    n: usize,
    s: &[u8],
    row: usize,
    levels: usize,
    count: usize,
) -> Option<usize>
    requires { (n ≤ lent table.now) × (n ≤ limit) × (row ≤ n) × (length s.now ≤ limit) }
    ensures { result ≡ extent_of (over_entries (grow table.now n s.now levels) (declaration_own count) row (grows table.now n s.now (grow table.now n s.now levels) Entries [] 0 count row)) }
{
    let next = check_children(table, n, s, row, levels, row, 0, Children::Entries, count)?;
    let inside = registry::base_of(row, next, count);
    check_value(table, n, s, next, levels, inside, count)
}

// Child number i of a holder.
#[cycle(checking)]
fn check_child(
    table: &[u32],
    n: usize,
    s: &[u8],
    row: usize,
    levels: usize,
    base: usize,
    around: usize,
    children: Children,
    i: usize,
) -> Option<usize>
    requires { EntriesBefore table.now n (first_in base) (in_force children around i) row × Based table.now base (in_force children around i) × (length s.now ≤ limit) }
    ensures { result ≡ extent_of (item table.now n s.now (is_key children i) (grow table.now n s.now levels) (chain table.now (first_in base) (in_force children around i)) row) }
{
    if children.is_key(i) {
        return check_key(table, n, s, row);
    }
    if 0 < levels && stands_alone(table, n, s, row) {
        return Some(row + 1);
    }
    check_value(table, n, s, row, levels, base, children.in_force(around, i))
}

// count children, back to back.
#[cycle(checking)]
fn check_children(
    table: &[u32],
    n: usize,
    s: &[u8],
    row: usize,
    levels: usize,
    base: usize,
    around: usize,
    children: Children,
    count: usize,
) -> Option<usize>
    requires { EntriesBeforeChild table.now n (first_in base) around children 0 row × BasedForChild table.now base around children × (length s.now ≤ limit) }
    ensures { result ≡ extent_all (grows table.now n s.now (grow table.now n s.now levels) children (chain table.now (first_in base) (in_force children around 0)) 0 count row) }
{
    let mut here = row;
    for i in 0..count {
        here = check_child(table, n, s, here, levels, base, around, children, i)?;
    }
    Some(here)
}
