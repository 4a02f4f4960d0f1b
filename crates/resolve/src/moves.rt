// The moves of resolving.
ghost use Rattle.std.specs.Prelude.{◌≡◌, ◌≤◌, ◌<◌, IfOk};
ghost use Rattle.rows.specs.Table.{lent};
ghost use Rattle.resolve.specs.Resolve.{value_row, move_at};

use rows::{BadTable, Row};

// From a declaration to its value, past `entries` entries, the first of them at `row`.
#[tactic(auto, using(crate::proofs::Moving::past_one, crate::proofs::Moving::past_all))]
fn value_row(
    table: &[u32],
    n: usize,
    end: usize,
    entries: usize,
    row: usize,
) -> Result<usize, BadTable>
    requires { n ≤ lent table.now }
    ensures { result ≡ value_row table.now n end entries row }
{
    let mut at = row;
    for _ in 0..entries {
        if n <= at {
            return Err(BadTable);
        }
        let past = rows::number(rows::end_at(table, at));
        if past <= at || end < past {
            return Err(BadTable);
        }
        at = past;
    }
    if n <= at || end <= at {
        return Err(BadTable);
    }
    Ok(at)
}

// The row that a reference or a declaration moves on to; none from another row.
#[tactic(auto, unfolding(crate::specs::Resolve::move_at))]
pub fn move_at(table: &[u32], n: usize, row: usize) -> Result<Option<usize>, BadTable>
    requires { n ≤ lent table.now }
    ensures value { result ≡ move_at table.now n row }
    ensures within { IfOk result (λ _. row < n) }
{
    if n <= row {
        return Err(BadTable);
    }
    let w = rows::row_at(table, row);
    match w.kind {
        Row::REFERENCE => {
            let entry = rows::number(w.w1);
            if row <= entry {
                return Err(BadTable);
            }
            Ok(Some(entry))
        }
        Row::DECLARATION => {
            let value = value_row(table, n, rows::number(w.end), rows::number(w.w0), row + 1)?;
            Ok(Some(value))
        }
        _ => Ok(None),
    }
}
