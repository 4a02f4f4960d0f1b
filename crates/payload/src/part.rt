// A part of the data.
#[derive(Clone, Copy, Debug, Default, PartialEq, Eq)]
pub struct Part {
    pub place: usize,
    pub size: usize,
}
