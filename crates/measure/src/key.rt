// Keys, which hold nothing.
ghost use Rattle.std.specs.Prelude.{◌≡◌, ◌≤◌, length};
ghost use Rattle.rows.specs.Table.{limit};
ghost use Rattle.format.specs.Head.{key_at};
ghost use Rattle.format.specs.Value.{keyed};
ghost use Rattle.measure.specs.Inner.{measured_of, told};

use crate::told::{right, wrong};

// A record's key at `at`.
pub fn measure_key(s: &[u8], at: usize, stop: usize) -> usize
    requires { (at ≤ stop) × (stop ≤ length s.now) × (length s.now ≤ limit) }
    ensures { result ≡ told (measured_of (keyed at (key_at s.now at stop))) }
{
    match heads::key_at(s, at, stop) {
        Ok(x) => right(1, x.place + x.size, false),
        Err(why) => wrong(why, at),
    }
}
