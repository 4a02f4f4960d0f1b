// The two variable integers: read from the front of a slice, written shortest at the front of a buffer. A function for each sign, as C
// calls it and the README names it; `both` is the one body.
#![tactic(auto)]

ghost use Rattle.std.specs.Prelude.{◌≡◌, length};
ghost use Rattle.wide.specs.Words.{value_of};
ghost use Rattle.wide.specs.Family.{form};
ghost use Rattle.wide.specs.Members.{signed, unsigned};
ghost use Rattle.variable.specs.Answer.{read_of, written_of, output_of};

mod both;
mod got;
mod no_room;
mod short;

pub use got::Got;
pub use no_room::NoRoom;
pub use short::Short;
use wide::Wide;

// The unsigned variable integer at the front of `s`.
pub fn read_unsigned(s: &[u8]) -> Result<Got, Short>
    ensures { result ≡ read_of unsigned s.now }
{
    both::read(s, false)
}

// The signed variable integer at the front of `s`.
pub fn read_signed(s: &[u8]) -> Result<Got, Short>
    ensures { result ≡ read_of signed s.now }
{
    both::read(s, true)
}

// `w` as an unsigned variable integer, shortest, at the front of `out`: the bytes written.
pub fn write_unsigned(out: &mut [u8], w: Wide) -> Result<usize, NoRoom>
    ensures value { result ≡ written_of (form unsigned (value_of w)) (length out.old) }
    ensures out_after { out.new ≡ output_of (form unsigned (value_of w)) out.old }
{
    both::write(out, w, false)
}

// `w` as a signed variable integer, shortest, at the front of `out`: the bytes written.
pub fn write_signed(out: &mut [u8], w: Wide) -> Result<usize, NoRoom>
    ensures value { result ≡ written_of (form signed (value_of w)) (length out.old) }
    ensures out_after { out.new ≡ output_of (form signed (value_of w)) out.old }
{
    both::write(out, w, true)
}
