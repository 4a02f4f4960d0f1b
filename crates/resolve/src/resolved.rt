// Where resolving ends: a row that is neither a reference nor a declaration, its end, and the moves that led there.
#[derive(Clone, Copy, Debug, Default, PartialEq, Eq)]
pub struct Resolved {
    pub row: usize,
    pub bound: usize,
    pub moves: usize,
}
