// Integers at a value position that a byte alone is.
ghost use Rattle.std.specs.Prelude.{◌≡◌};
ghost use Rattle.wide.specs.Words.{value_of, wide_of};
ghost use Rattle.wide.specs.Family.{number_of, has_number};
ghost use Rattle.wide.specs.Members.{integer_signed, integer};

use crate::near;
use crate::wide::Wide;

// The number of a marker that no body follows.
pub fn small(marker: u8) -> Wide
    ensures { result ≡ wide_of (number_of integer_signed.direct marker) }
{
    near::near(31, (marker as u32 + 224) % 256)
}

// Whether the number is in -31..64, and not below 0 where it is unsigned.
pub fn is_small(w: Wide, signed: bool) -> bool
    ensures { result ≡ has_number (integer signed).direct (value_of w) }
{
    if signed {
        return near::is_near(w, 31, 65);
    }
    near::is_near(w, 0, 65)
}
