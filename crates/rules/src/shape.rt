use format::Holder;

// What a row's own words make it at a value position; what stands behind it is not looked at.
#[derive(Clone, Copy, Debug, PartialEq, Eq)]
pub enum Shape {
    // They break a rule. Not an Option of the others: every law on a row's shape, in five crates, would say Some of it.
    Bad,
    Leaf,
    Refer,
    Hold { holder: Holder },
    Declare,
    // A foreign document, right or damaged.
    Whole,
    Damaged,
}
