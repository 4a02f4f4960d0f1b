// Steps from a standing.
ghost use Rattle.std.specs.Prelude.{◌≡◌, ◌<◌, IfOk, IfErr, true, false};
ghost use Rattle.rows.specs.Table.{row_at, lent};
ghost use Rattle.walker.specs.Walk.{genuine, step_in, step_on, step_along};

use crate::standing::Standing;
use crate::unmoved::Unmoved;
use rows::{BadTable, Row};

// The end of the row that is stood on, if the standing is not forged.
#[tactic(auto, unfolding(crate::specs::Walk::genuine))]
fn end_of(table: &[u32], n: usize, at: Standing) -> Result<usize, BadTable>
    ensures stood { IfOk result (λ end. (genuine table.now n at.row at.bound ≡ true) × (end ≡ (row_at table.now at.row).end) × (at.row < lent table.now)) }
    ensures forged { IfErr result (λ _. genuine table.now n at.row at.bound ≡ false) }
{
    if n <= rows::lent(table) && at.row < n && at.row < at.bound && at.bound <= n {
        let end = rows::number(rows::end_at(table, at.row));
        if end <= at.bound && at.row < end {
            return Ok(end);
        }
    }
    Err(BadTable)
}

// In: to the first child.
#[tactic(auto, unfolding(crate::specs::Walk::step_in))]
pub fn step_in(table: &[u32], n: usize, at: Standing) -> Result<Standing, Unmoved>
    ensures { result ≡ step_in table.now n at }
{
    let end = end_of(table, n, at)?;
    let row = at.row + 1;
    if row < end {
        Ok(Standing { row, bound: end })
    } else {
        Err(Unmoved::NoStep)
    }
}

// On: to the next child of the same holder.
#[tactic(auto, unfolding(crate::specs::Walk::step_on))]
pub fn step_on(table: &[u32], n: usize, at: Standing) -> Result<Standing, Unmoved>
    ensures { result ≡ step_on table.now n at }
{
    let row = end_of(table, n, at)?;
    if row < at.bound {
        Ok(Standing {
            row,
            bound: at.bound,
        })
    } else {
        Err(Unmoved::NoStep)
    }
}

// Along: to the entry of a reference.
#[tactic(auto, unfolding(crate::specs::Walk::step_along))]
pub fn step_along(table: &[u32], n: usize, at: Standing) -> Result<Standing, Unmoved>
    ensures { result ≡ step_along table.now n at }
{
    end_of(table, n, at)?;
    let w = rows::row_at(table, at.row);
    if w.kind != Row::REFERENCE {
        return Err(Unmoved::NoStep);
    }
    let row = rows::number(w.w1);
    if at.row <= row {
        return Err(Unmoved::BadTable);
    }
    let bound = rows::number(rows::end_at(table, row));
    Ok(Standing { row, bound })
}
