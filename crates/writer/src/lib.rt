// A table's document.
#![tactic(auto)]

mod flat;
mod number;
mod sizes;
mod unwritten;

ghost use Rattle.std.specs.Prelude.{◌≡◌, ◌≤◌, length};
ghost use Rattle.format.specs.Answer.{depth_limit};
ghost use Rattle.writer.specs.Written.{written, output_after};

use rows::Row;
pub use unwritten::Unwritten;

// The same with positions down to `depth`.
fn write_within(
    table: &[u32],
    n: usize,
    data: &[u8],
    out: &mut [u8],
    depth: usize,
) -> Result<usize, Unwritten>
    requires { depth ≤ depth_limit }
    ensures value { result ≡ written depth table.now n «data».now (length out.old) }
    ensures out_after { out.new ≡ output_after depth table.now n «data».now out.old }
{
    checker::check_within(table, n, data, depth)?;
    let needed = sizes::size_children(table, 0, n);
    if Row::LIMIT < needed {
        return Err(Unwritten::TooLarge { needed });
    }
    if out.len() < needed {
        return Err(Unwritten::NoRoom { needed });
    }
    flat::write_rows(table, n, data, out);
    Ok(needed)
}

// The document of the first n rows of `table` over `data`, shortest, at the front of `out`; the rest of it stays as it was, and all of it
// under a refusal.
pub fn write(table: &[u32], n: usize, data: &[u8], out: &mut [u8]) -> Result<usize, Unwritten>
    ensures value { result ≡ written depth_limit table.now n «data».now (length out.old) }
    ensures out_after { out.new ≡ output_after depth_limit table.now n «data».now out.old }
{
    write_within(table, n, data, out, format::DEPTH_LIMIT)
}
