// Where a leaf or a key ends whose first bytes tell all of it: asked of them with no head between, for speed alone. Every answer is the place
// behind it, or 0 where it is another, or none.
// No Option (tried, bar of speed missed): measuring records, passages and references took up to a quarter longer.
ghost use Rattle.std.specs.Prelude.{◌+◌, ◌≤◌, ◌<◌, ◌≡◌, length, get_or};
ghost use Rattle.rows.specs.Table.{limit};
ghost use Rattle.format.specs.Head.{spelling, text_head, head_at, key_at};
ghost use Rattle.leaves.specs.Inner.{LeafAsked, KeyAsked, end_of};

use wide::size::size_at;

// A body of `size` bytes at `place`.
fn end_body(place: usize, size: usize, stop: usize) -> usize
    requires { (place ≤ stop) × (stop ≤ limit) }
    ensures { result ≡ end_of place size stop }
{
    if stop - place < size {
        return 0;
    }
    place + size
}

// A text of `size` bytes at `place`.
fn end_text(s: &[u8], at: usize, place: usize, size: usize, stop: usize) -> usize
    requires { (at < place) × (place ≤ stop) × (stop ≤ length s.now) × (length s.now ≤ limit) }
    ensures { LeafAsked (text_head at (spelling s.now place size stop)) result }
{
    if stop - place < size {
        return 0;
    }
    let end = place + size;
    if text::is_well_formed(&s[place..end]) {
        return end;
    }
    0
}

// A text or a binary whose length is one byte, behind the marker.
fn end_short(s: &[u8], at: usize, stop: usize, marker: u8) -> usize
    requires { (at < stop) × (stop ≤ length s.now) × (length s.now ≤ limit) × (marker ≡ get_or s.now at 0) }
    ensures { LeafAsked (head_at s.now at stop) result }
{
    let place = at + 2;
    if stop < place {
        return 0;
    }
    let size = heads::index(s[at + 1]);
    if 247 < size {
        return 0;
    }
    if marker == 8 {
        return end_text(s, at, place, size, stop);
    }
    if marker == 12 {
        return end_body(place, size, stop);
    }
    0
}

// The leaf at `at`.
pub fn end_plain(s: &[u8], at: usize, stop: usize) -> usize
    requires { (at ≤ stop) × (stop ≤ length s.now) × (length s.now ≤ limit) }
    ensures { LeafAsked (head_at s.now at stop) result }
{
    if stop <= at {
        return 0;
    }
    let marker = s[at];
    let b = heads::index(marker);
    if b < 16 {
        if b < 3 {
            return at + 1; // a constant
        }
        return end_short(s, at, stop, marker);
    }
    if b < 32 {
        return end_body(at + 1, size_at(b % 8), stop);
    }
    if b < 128 {
        return at + 1; // a small integer
    }
    if b < 160 {
        return end_text(s, at, at + 1, b - 127, stop);
    }
    0
}

// The record's key at `at`.
pub fn end_key(s: &[u8], at: usize, stop: usize) -> usize
    requires { (at ≤ stop) × (stop ≤ length s.now) × (length s.now ≤ limit) }
    ensures { KeyAsked (key_at s.now at stop) result }
{
    if stop <= at {
        return 0;
    }
    let length = heads::index(s[at]);
    if 247 < length {
        return 0;
    }
    end_text(s, at, at + 1, length, stop)
}
