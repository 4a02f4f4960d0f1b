// Bytes as text.
ghost use Rattle.std.specs.Prelude.{◌≡◌, ◌*◌, length, Some};
ghost use Rattle.line.specs.Pairs.{pairs};

use std::{fmt, str};

// A space and two hexadecimal digits for each byte.
#[derive(Clone, Copy, Debug)]
pub struct Pairs<'a>(pub &'a [u8]);

// The same in a buffer that these fill.
fn lay(bytes: &[u8], text: &mut [u8])
    requires { length text.old ≡ 3 * length bytes.now }
    ensures { text.new ≡ pairs bytes.now }
{
    let digits = b"0123456789abcdef";
    for i in 0..bytes.len() {
        let b = bytes[i];
        text[3 * i] = b' ';
        text[3 * i + 1] = digits[usize::from(b / 16)];
        text[3 * i + 2] = digits[usize::from(b % 16)];
    }
}

impl fmt::Display for Pairs<'_> {
    ghost output = { λ p. Some (pairs p.0.now) };

    // Many bytes a write, for a write costs as much as many bytes.
    fn fmt<W: fmt::Write>(&self, f: &mut fmt::Formatter<W>) -> fmt::Result {
        let mut room = [0; 96];
        for part in self.0.chunks(32) {
            let text = &mut room[..3 * part.len()];
            lay(part, text);
            let Ok(text) = str::from_utf8(text) else {
                unreachable!();
            };
            f.write_str(text)?;
        }
        Ok(())
    }
}
