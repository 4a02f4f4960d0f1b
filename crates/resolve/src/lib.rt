// Resolving over a lent table, checked or not.
#![tactic(auto)]

mod moves;
mod resolved;

ghost use Rattle.std.specs.Prelude.{◌≡◌};
ghost use Rattle.resolve.specs.Resolve.{resolve};

pub use resolved::Resolved;
use rows::BadTable;

// Along references and from declarations to their values, to a row that is neither.
#[tactic(auto, using(crate::proofs::Moving::chase_one, crate::proofs::Moving::chase_none), unfolding(crate::specs::Resolve::resolve))]
pub fn resolve(table: &[u32], n: usize, row: usize) -> Result<Resolved, BadTable>
    ensures { result ≡ resolve table.now n row }
{
    if rows::lent(table) < n {
        return Err(BadTable);
    }
    let mut here = row;
    for moves in 0..n {
        let Some(next) = moves::move_at(table, n, here)? else {
            let bound = rows::number(rows::end_at(table, here));
            return Ok(Resolved {
                row: here,
                bound,
                moves,
            });
        };
        here = next;
    }
    Err(BadTable)
}
