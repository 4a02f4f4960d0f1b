// What the first byte of a sequence says: how many bytes follow, and the lowest and the highest that the next may be.
#[derive(Clone, Copy, Debug, PartialEq, Eq)]
pub struct Lead {
    pub left: usize,
    pub low: u8,
    pub high: u8,
}
