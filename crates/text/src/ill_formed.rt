// Why bytes are no text: the offset of the first byte of the first ill-formed sequence, from the front of the slice.
#[derive(Clone, Copy, Debug, PartialEq, Eq)]
pub struct IllFormed {
    pub offset: usize,
}
