// The text check by itself, as C sees it: what its size, its times and its tests are taken of. `include/panxidell.h` does not have it: the
// library has the check inside its calls.
#![tactic(auto)]

ghost use Rattle.std.specs.Prelude.{◌≡◌, length};
ghost use Rattle.text.specs.Check.{text_of};
ghost use Rattle.text_c.specs.UpTo.{up_to};

use text::IllFormed;

// How many bytes are text, from the front on: all, or those before the first ill-formed sequence.
#[unsafe(no_mangle)]
pub extern "C" fn panxidell_text(data: &[u8]) -> usize
    ensures { result ≡ up_to (length «data».now) (text_of «data».now) }
{
    match text::check(data) {
        Ok(()) => data.len(),
        Err(IllFormed { offset }) => offset,
    }
}
