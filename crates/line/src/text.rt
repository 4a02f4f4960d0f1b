// The start of a text, as much of it as fits into a lent buffer.
ghost use Rattle.std.specs.Prelude.{◌≡◌, ◌≤◌, length, take};

use std::fmt;

// The text, in its first `len` bytes.
#[derive(Debug, Drop)]
pub struct Text<'a> {
    room: &'a mut [u8],
    len: usize,
    pub ghost in_room: { len ≤ length room.now },
}

impl<'a> Text<'a> {
    pub fn new(room: &'a mut [u8]) -> Text<'a>
        ensures { (result.len ≡ 0) × (result.room ≡ room.entry) }
    {
        Text { room, len: 0 }
    }

    pub fn bytes(&self) -> &[u8]
        ensures { result.now ≡ take self.now.len self.now.room.now }
    {
        &self.room[..self.len]
    }
}

impl fmt::Write for Text<'_> {
    // What does not fit is left out.
    fn write_str(&mut self, s: &str) -> fmt::Result {
        let fits = s.len().min(self.room.len() - self.len);
        let end = self.len + fits;
        self.room[self.len..end].copy_from_slice(&s.as_bytes()[..fits]);
        self.len = end;
        Ok(())
    }
}
