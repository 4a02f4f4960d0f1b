// Fills a lent table from a document: the document is measured whole first, so that no row is laid on hope.
#![tactic(auto)]

ghost use Rattle.std.specs.Prelude.{◌≡◌, ◌≤◌};
ghost use Rattle.format.specs.Answer.{depth_limit, answer, table_after};

pub use format::Unfilled;
use measure::told;
use rows::Row;

// Fills from a document whose positions nest to `depth`: the whole document is measured before a row is laid.
fn fill_within(data: &[u8], table: &mut [u32], depth: usize) -> Result<usize, Unfilled>
    requires { depth ≤ depth_limit }
    ensures value { result ≡ answer depth «data».now table.old }
    ensures table_after { table.new ≡ table_after depth «data».now table.old }
{
    if Row::LIMIT < data.len() {
        rows::zero_from(table, 0);
        return Err(Unfilled::TooLong);
    }
    let measured = measure::measure_document(data, depth);
    if told::WRONG <= measured {
        rows::zero_from(table, 0);
        return Err(Unfilled::Refused {
            why: told::why_in(measured),
            place: told::wrong_place(measured),
        });
    }
    let needed = told::row_in(measured);
    if needed <= rows::lent(table) {
        let used = laying::lay_document(table, data, depth, told::is_broken(measured));
        let behind = Row::WORDS * used;
        rows::zero_from(table, behind);
        return Ok(used);
    }
    rows::zero_from(table, 0);
    Err(Unfilled::Full { needed })
}

// Fills a table from a document: the answer, and under every refusal a table of zeros.
pub fn fill(data: &[u8], table: &mut [u32]) -> Result<usize, Unfilled>
    ensures value { result ≡ answer depth_limit «data».now table.old }
    ensures table_after { table.new ≡ table_after depth_limit «data».now table.old }
{
    fill_within(data, table, format::DEPTH_LIMIT)
}
