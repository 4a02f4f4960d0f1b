// Rows: their kinds, and a lent table of them. Nothing here knows a document.
#![tactic(auto)]

mod bad_table; // the refusal of a table
mod row; // the type and its numbers
mod making; // a row of each kind

ghost use Rattle.std.specs.Prelude.{◌≡◌, ◌*◌, ◌<◌};
ghost use Rattle.std.proofs.lemmas.List.Edits.{sets};
ghost use Rattle.rows.specs.Table.{words_per_row, words_of, word_at, row_at, lent, row_or_zeros};

pub use bad_table::BadTable;
pub use lists::zero_from;
pub use row::Row;

// A number of a row, to reckon and to index with. `as usize` would not tell its callers the bound.
pub fn number(w: u32) -> usize
    ensures { (result ≡ w) × (result < 4294967296) }
{
    w as usize
}

// Words behind the last whole row belong to none.
pub fn lent(table: &[u32]) -> usize
    ensures { result ≡ lent table.now }
{
    table.len() / Row::WORDS
}

// Every other word of the table stays. Word by word, as in `row_at`: an array between would not say which number stands where.
pub fn lay(table: &mut [u32], row: usize, r: Row)
    requires { row < lent table.old }
    ensures { table.new ≡ sets table.old (words_per_row * row) (words_of r) }
{
    let at = Row::WORDS * row;
    table[at] = r.kind;
    table[at + 1] = r.end;
    table[at + 2] = r.w0;
    table[at + 3] = r.w1;
    table[at + 4] = r.w2;
    table[at + 5] = r.w3;
}

// One number of a row: the one place where a row is found in the table to be read.
fn word_at(table: &[u32], row: usize, i: usize) -> u32
    requires { (row < lent table.now) × (i < words_per_row) }
    ensures { result ≡ word_at table.now row i }
{
    table[Row::WORDS * row + i]
}

// The words are in the order in which `lay` writes them.
pub fn row_at(table: &[u32], row: usize) -> Row
    requires { row < lent table.now }
    ensures { result ≡ row_at table.now row }
{
    Row {
        kind: word_at(table, row, 0),
        end: word_at(table, row, 1),
        w0: word_at(table, row, 2),
        w1: word_at(table, row, 3),
        w2: word_at(table, row, 4),
        w3: word_at(table, row, 5),
    }
}

// For any row number: six zeros, which are no row, where the table does not lend it.
pub fn row_or_zeros(table: &[u32], row: usize) -> Row
    ensures { result ≡ row_or_zeros table.now row }
{
    if row < lent(table) {
        return row_at(table, row);
    }
    Row::default()
}

// For who needs no more of a row than its kind. This and the two below are named in the README, each by the word that it gives.
pub fn kind_at(table: &[u32], row: usize) -> u32
    requires { row < lent table.now }
    ensures { result ≡ (row_at table.now row).kind }
{
    word_at(table, row, 0)
}

// Or than its end, as a walk over children does.
pub fn end_at(table: &[u32], row: usize) -> u32
    requires { row < lent table.now }
    ensures { result ≡ (row_at table.now row).end }
{
    word_at(table, row, 1)
}

// Or than its first word: a count, a place or a number.
pub fn w0_at(table: &[u32], row: usize) -> u32
    requires { row < lent table.now }
    ensures { result ≡ (row_at table.now row).w0 }
{
    word_at(table, row, 2)
}
