// Whether a table, wherever it came from, obeys the row rules.
#![tactic(auto)]

mod one;
mod value;

ghost use Rattle.std.specs.Prelude.{◌≡◌, ◌≤◌};
ghost use Rattle.format.specs.Answer.{depth_limit};
ghost use Rattle.checker.specs.Checked.{checked};

pub use rows::BadTable;
use rows::Row;

// The same with positions down to `depth`.
pub fn check_within(table: &[u32], n: usize, data: &[u8], depth: usize) -> Result<usize, BadTable>
    requires { depth ≤ depth_limit }
    ensures { result ≡ checked depth table.now n «data».now }
{
    if n < 1 || Row::LIMIT < n || rows::lent(table) < n || Row::LIMIT < data.len() {
        return Err(BadTable);
    }
    let next = value::check_value(table, n, data, 0, depth + 1, 0, 0).ok_or(BadTable)?;
    if next != n {
        return Err(BadTable);
    }
    Ok(n)
}

// Whether the first n rows of `table` obey the row rules over `data`, with positions down to depth 32. No row behind them is looked at.
pub fn check(table: &[u32], n: usize, data: &[u8]) -> Result<usize, BadTable>
    ensures { result ≡ checked depth_limit table.now n «data».now }
{
    check_within(table, n, data, format::DEPTH_LIMIT)
}
