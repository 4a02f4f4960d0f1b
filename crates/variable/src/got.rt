use wide::Wide;

// A variable integer that was read. Under a refusal all of it is 0, as in the default.
#[derive(Clone, Copy, Debug, PartialEq, Eq, Default)]
pub struct Got {
    pub value: Wide,
    // The bytes that say it.
    pub used: usize,
}
