// Where a walker stands: a row, and the end of the holder around it.
#[derive(Clone, Copy, Debug, Default, PartialEq, Eq)]
pub struct Standing {
    pub row: usize,
    pub bound: usize,
}
