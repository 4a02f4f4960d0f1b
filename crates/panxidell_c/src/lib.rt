// The library as C sees it, by the names of include/panxidell.h. A slice is a pointer and a length there.
#![tactic(auto)]

ghost use Rattle.std.specs.Prelude.{◌≡◌, Err, length};
ghost use Rattle.wide.specs.Words.{value_of, words};
ghost use Rattle.wide.specs.Family.{form};
ghost use Rattle.wide.specs.Members.{signed, unsigned};
ghost use Rattle.variable.specs.Answer.{read_of, written_of, output_of};
ghost use Rattle.format.specs.Answer.{depth_limit, needed, answer, table_after};
ghost use Rattle.checker.specs.Checked.{checked};
ghost use Rattle.writer.specs.Written.{written, output_after};
ghost use Rattle.walker.specs.Walk.{standing, step_in, step_on, step_along};
ghost use Rattle.resolve.specs.Resolve.{resolve, broken};
ghost use Rattle.payload.specs.Payload.{payload_at};
ghost use Rattle.packing.specs.Packed.{packed_needed, packed_answer, packed_checked, packed_written, packed_coded, packed_step, within, list_after, resolved_words, packed_resolved, part_words, packed_part, read_words, packed_read};

use resolve::Resolved;
use rows::{BadTable, Row};
use walker::{Standing, Unmoved};
use wide::Wide;

// How many rows a document needs.
#[unsafe(no_mangle)]
pub extern "C" fn panxidell_measure(data: &[u8]) -> u64
    ensures { result ≡ packed_needed (needed depth_limit «data».now) }
{
    packing::answer(measure::measure(data))
}

// Fills a table from a document.
#[unsafe(no_mangle)]
pub extern "C" fn panxidell_fill(data: &[u8], table: &mut [u32]) -> u64
    ensures value { result ≡ packed_answer (answer depth_limit «data».now table.old) }
    ensures table_after { table.new ≡ table_after depth_limit «data».now table.old }
{
    packing::answer(reader::fill(data, table))
}

// Whether the first n rows obey the row rules.
#[unsafe(no_mangle)]
pub extern "C" fn panxidell_check(table: &[u32], n: usize, data: &[u8]) -> u64
    ensures { result ≡ packed_checked (checked depth_limit table.now n «data».now) }
{
    packing::answer(checker::check(table, n, data))
}

// Writes the document of the first n rows.
#[unsafe(no_mangle)]
pub extern "C" fn panxidell_write(table: &[u32], n: usize, data: &[u8], out: &mut [u8]) -> u64
    ensures value { result ≡ packed_written (written depth_limit table.now n «data».now (length out.old)) }
    ensures out_after { out.new ≡ output_after depth_limit table.now n «data».now out.old }
{
    packing::answer(writer::write(table, n, data, out))
}

// In: to the first child.
#[unsafe(no_mangle)]
pub extern "C" fn panxidell_in(table: &[u32], n: usize, row: usize, bound: usize) -> u64
    ensures { result ≡ packed_step (within n (step_in table.now n (standing row bound)) (Err Unmoved.BadTable)) }
{
    packing::step(n, walker::step_in(table, n, Standing { row, bound }))
}

// On: to the next child of the same holder.
#[unsafe(no_mangle)]
pub extern "C" fn panxidell_on(table: &[u32], n: usize, row: usize, bound: usize) -> u64
    ensures { result ≡ packed_step (within n (step_on table.now n (standing row bound)) (Err Unmoved.BadTable)) }
{
    packing::step(n, walker::step_on(table, n, Standing { row, bound }))
}

// Along: to the entry of a reference.
#[unsafe(no_mangle)]
pub extern "C" fn panxidell_along(table: &[u32], n: usize, row: usize, bound: usize) -> u64
    ensures { result ≡ packed_step (within n (step_along table.now n (standing row bound)) (Err Unmoved.BadTable)) }
{
    packing::step(n, walker::step_along(table, n, Standing { row, bound }))
}

// Resolving, of at most as many rows as a row is packed for.
fn resolve_within(table: &[u32], n: usize, row: usize) -> Result<Resolved, BadTable>
    ensures { result ≡ within n (resolve table.now n row) broken }
{
    if Row::LIMIT < n {
        return Err(BadTable);
    }
    resolve::resolve(table, n, row)
}

// Along references and from declarations to their values: row, bound and moves into the lent list.
#[unsafe(no_mangle)]
pub extern "C" fn panxidell_resolve(table: &[u32], n: usize, row: usize, out: &mut [u32]) -> u64
    ensures value { result ≡ packed_resolved (within n (resolve table.now n row) broken) out.old }
    ensures out_after { out.new ≡ list_after (resolved_words (within n (resolve table.now n row) broken)) out.old }
{
    packing::resolved(out, resolve_within(table, n, row))
}

// A row's payload: its place and its size into the lent list.
#[unsafe(no_mangle)]
pub extern "C" fn panxidell_payload(table: &[u32], row: usize, data: &[u8], out: &mut [u32]) -> u64
    ensures value { result ≡ packed_part (payload_at table.now row «data».now) out.old }
    ensures out_after { out.new ≡ list_after (part_words (payload_at table.now row «data».now)) out.old }
{
    packing::part(out, payload::payload_at(table, row, data))
}

// The unsigned variable integer at the front of `data`.
#[unsafe(no_mangle)]
pub extern "C" fn panxidell_read_unsigned(data: &[u8], out: &mut [u32]) -> u64
    ensures value { result ≡ packed_read (read_of unsigned «data».now) out.old }
    ensures out_after { out.new ≡ list_after (read_words (read_of unsigned «data».now)) out.old }
{
    packing::read(out, variable::read_unsigned(data))
}

// The signed variable integer at the front of `data`.
#[unsafe(no_mangle)]
pub extern "C" fn panxidell_read_signed(data: &[u8], out: &mut [u32]) -> u64
    ensures value { result ≡ packed_read (read_of signed «data».now) out.old }
    ensures out_after { out.new ≡ list_after (read_words (read_of signed «data».now)) out.old }
{
    packing::read(out, variable::read_signed(data))
}

// Four words as an unsigned variable integer, shortest, at the front of `out`.
#[unsafe(no_mangle)]
pub extern "C" fn panxidell_write_unsigned(
    out: &mut [u8],
    w0: u32,
    w1: u32,
    w2: u32,
    w3: u32,
) -> u64
    ensures value { result ≡ packed_coded (written_of (form unsigned (value_of (words w0 w1 w2 w3))) (length out.old)) }
    ensures out_after { out.new ≡ output_of (form unsigned (value_of (words w0 w1 w2 w3))) out.old }
{
    packing::answer(variable::write_unsigned(out, Wide { w0, w1, w2, w3 }))
}

// Four words as a signed variable integer, shortest, at the front of `out`.
#[unsafe(no_mangle)]
pub extern "C" fn panxidell_write_signed(out: &mut [u8], w0: u32, w1: u32, w2: u32, w3: u32) -> u64
    ensures value { result ≡ packed_coded (written_of (form signed (value_of (words w0 w1 w2 w3))) (length out.old)) }
    ensures out_after { out.new ≡ output_of (form signed (value_of (words w0 w1 w2 w3))) out.old }
{
    packing::answer(variable::write_signed(out, Wide { w0, w1, w2, w3 }))
}
