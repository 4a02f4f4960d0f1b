// The demands, across the crates.
#![tactic(auto)]

ghost use Rattle.std.specs.Prelude.{◌≡◌, length};
ghost use Rattle.format.specs.Answer.{depth_limit};
ghost use Rattle.writer.specs.Written.{output_after};
ghost use Rattle.demands.specs.Back.{back_of, table_back, ReadsBack};

use reader::Unfilled;
use writer::Unwritten;

// Writes a table's document into `out` and reads it from there into `back`: the writer's refusal, or what the reader answers.
pub fn write_and_read(
    table: &[u32],
    n: usize,
    data: &[u8],
    out: &mut [u8],
    back: &mut [u32],
) -> Result<Result<usize, Unfilled>, Unwritten>
    ensures value { result ≡ back_of depth_limit table.now n «data».now (length out.old) back.old }
    ensures out_after { out.new ≡ output_after depth_limit table.now n «data».now out.old }
    ensures back_after { back.new ≡ table_back depth_limit table.now n «data».now (length out.old) back.old }
    ensures reads_back { ReadsBack depth_limit table.now n «data».now (length out.old) back.old result back.new }
{
    let used = writer::write(table, n, data, out)?;
    Ok(reader::fill(&out[..used], back))
}
