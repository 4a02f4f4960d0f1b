use format::Holder;

// What a row's words are to be, by its kind.
#[derive(Clone, Copy, Debug, PartialEq, Eq)]
pub enum Kind {
    Constant,
    Small,
    Signed,
    Unsigned,
    Float,
    Text,
    Holds { holder: Holder },
    Binary,
    Char,
    Reference,
    Declaration,
    // A foreign document, right or damaged.
    Whole,
    Damaged,
    // A record's key: it stands at no value position.
    Key,
    // No kind at all. Not an Option of the others: whoever matches a kind gives it an arm, as to Key, and would take it out of Some first.
    Unknown,
}
