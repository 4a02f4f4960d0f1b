// What a program is given of a table.
ghost use Rattle.std.specs.Prelude.{◌≡◌, ℕ, ◌+◌, ◌*◌, List, length, take, drop, IfOk, IfSome, IsNone};
ghost use Rattle.std.specs.Int.{w16, w32, from_le_bytes};
ghost use Rattle.std.specs.Io.KnownBytes.{Consumes, IsAtEnd};
ghost use Rattle.feed.specs.Words.{words_in};

use crate::fill;
use line::input::fills;
use std::io;
use std::io::Read;

// What stands before a table: how many words it has, n, and how many bytes of data there are behind the words.
#[derive(Clone, Copy, Debug, PartialEq, Eq)]
pub struct Front {
    pub words: u16,
    pub n: u32,
    pub size: u16,
}

impl From<[u8; 8]> for Front {
    fn from(b: [u8; 8]) -> Front
        ensures words { result.words ≡ from_le_bytes w16 (take 2 b) }
        ensures n { result.n ≡ from_le_bytes w32 (take 4 (drop 2 b)) }
        ensures size { result.size ≡ from_le_bytes w16 (drop 6 b) }
    {
        Front {
            words: u16::from_le_bytes([b[0], b[1]]),
            n: u32::from_le_bytes([b[2], b[3], b[4], b[5]]),
            size: u16::from_le_bytes([b[6], b[7]]),
        }
    }
}

impl Front {
    // None at the end of the input.
    pub fn read<R: Read>(input: &mut R) -> io::Result<Option<Front>>
        ensures { IfOk result (λ r. IsNone r → IsAtEnd (R.remaining input.new)) }
    {
        let mut bytes = [0; 8];
        let more = fills(input, &mut bytes)?;
        Ok(more.then(|| Front::from(bytes)))
    }

    // The words, and the data with `more` bytes behind it; none where they do not fit, or the input ends before.
    pub fn rest<'a, R: Read>(
        self,
        more: u32,
        input: &mut R,
        buf: &'a mut [u8],
        table: &'a mut [u32],
    ) -> io::Result<Option<(&'a [u32], &'a [u8])>>
        ensures size { IfOk result (λ r. IfSome r (λ p. (length p.0.now ≡ self.words) × (length p.1.now ≡ self.size + more))) }
        ensures bytes { IfOk result (λ r. IfSome r (λ p. (bs : List ℕ) × Consumes (R.remaining input.old) (R.remaining input.new) bs
            × (p.0.now ≡ words_in self.words bs) × (p.1.now ≡ drop (4 * self.words) bs))) }
    {
        let words = usize::from(self.words);
        let front = 4 * words;
        let length = front + usize::from(self.size) + more as usize;
        let Some(part) = buf.get_mut(..length) else {
            return Ok(None);
        };
        if !fills(input, part)? {
            return Ok(None);
        }
        let Some(lent) = table.get_mut(..words) else {
            return Ok(None);
        };
        fill(lent, words, part);
        Ok(Some((lent, &part[front..])))
    }
}
