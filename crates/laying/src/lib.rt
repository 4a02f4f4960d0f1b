// Lays the rows of a document that reads right into rows that are lent: no row is laid on hope.
#![tactic(auto)]

ghost use Rattle.std.specs.Prelude.{◌≡◌, [], ◌≤◌, length};
ghost use Rattle.std.proofs.lemmas.List.Edits.{sets};
ghost use Rattle.rows.specs.Table.{limit};
ghost use Rattle.format.specs.Tree.{size};
ghost use Rattle.format.specs.Value.{document};
ghost use Rattle.format.specs.Layout.{layout};
ghost use Rattle.format.specs.Answer.{depth_limit};
ghost use Rattle.laying.specs.Inner.{tree_read, Ready};

mod one;
mod value;

use measure::told;
use value::lay_value;

// All rows of a document whose positions nest to `depth`, at the front of the table; how many they are. What stands behind them stays.
pub fn lay_document(table: &mut [u32], s: &[u8], depth: usize, doubt: bool) -> usize
    requires ready { Ready (document depth s.now) doubt table.old 0 0 0 }
    requires depth_le_depth_limit { (depth ≤ depth_limit) × (length s.now ≤ limit) }
    ensures value { result ≡ size (tree_read (document depth s.now)) }
    ensures table_after { table.new ≡ sets table.old 0 (layout (tree_read (document depth s.now)) 0 []) }
{
    let stop = s.len();
    let f = lay_value(table, s, 0, stop, depth + 1, 0, 0, 0, doubt);
    told::row_in(f)
}
