// How many rows a document needs, or why it is refused: a pass that writes nothing and assembles no words.
#![tactic(auto)]

ghost use Rattle.std.specs.Prelude.{◌≡◌, ◌≤◌, length};
ghost use Rattle.rows.specs.Table.{limit};
ghost use Rattle.format.specs.Value.{value, whole, document};
ghost use Rattle.format.specs.Answer.{depth_limit, needed};
ghost use Rattle.measure.specs.Inner.{measured_of, told};

mod key;
mod plain;
pub mod told;
mod value;

pub use format::Unmeasured;
use rows::Row;
use told::WRONG;
use value::measure_value;

// All the bytes from `at` to `stop`, as of a document or of a foreign body: one value position, and nothing behind it.
pub fn measure_whole(s: &[u8], at: usize, stop: usize, levels: usize, around: usize) -> usize
    requires { (at ≤ stop) × (stop ≤ length s.now) × (length s.now ≤ limit) }
    ensures { result ≡ told (measured_of (whole stop (value levels s.now around at stop))) }
{
    told::ended(measure_value(s, at, stop, levels, around), stop)
}

// A whole document whose positions nest to `depth`.
pub fn measure_document(s: &[u8], depth: usize) -> usize
    requires { (depth ≤ depth_limit) × (length s.now ≤ limit) }
    ensures { result ≡ told (measured_of (document depth s.now)) }
{
    measure_whole(s, 0, s.len(), depth + 1, 0)
}

// The same for a caller who is told by name.
fn measure_within(data: &[u8], depth: usize) -> Result<usize, Unmeasured>
    requires { depth ≤ depth_limit }
    ensures { result ≡ needed depth «data».now }
{
    if Row::LIMIT < data.len() {
        return Err(Unmeasured::TooLong);
    }
    let f = measure_document(data, depth);
    if f < WRONG {
        return Ok(told::row_in(f));
    }
    Err(Unmeasured::Refused {
        why: told::why_in(f),
        place: told::wrong_place(f),
    })
}

// Measures a document: the rows that it needs, or what is wrong with it and where.
pub fn measure(data: &[u8]) -> Result<usize, Unmeasured>
    ensures { result ≡ needed depth_limit «data».now }
{
    measure_within(data, format::DEPTH_LIMIT)
}
