// A length, count or number and the place behind it.
#[derive(Clone, Copy, Debug, PartialEq, Eq)]
pub struct Count {
    pub value: usize,
    pub next: usize,
}

// Where the bytes of a text or of a key stand.
#[derive(Clone, Copy, Debug, PartialEq, Eq)]
pub struct Spelling {
    pub place: usize,
    pub size: usize,
}

// What a leaf holds.
#[derive(Clone, Copy, Debug, PartialEq, Eq)]
pub enum Content {
    Constant {
        kind: u32,
    },
    Small {
        marker: u8,
    },
    Integer {
        signed: bool,
        place: usize,
        size: usize,
    },
    Span {
        kind: u32,
        place: usize,
        size: usize,
    },
    Char {
        codepoint: u32,
    },
}

// What holds elements or entries.
#[derive(Clone, Copy, Debug, PartialEq, Eq)]
pub enum Holder {
    Array,
    Record,
    Map,
}

// What stands at a value position: a leaf and the place behind it; a holder, a declaration, and the place of the first that it holds; a
// reference; or a foreign body.
#[derive(Clone, Copy, Debug, PartialEq, Eq)]
pub enum Head {
    Leaf {
        content: Content,
        next: usize,
    },
    Hold {
        holder: Holder,
        count: usize,
        next: usize,
    },
    Refer {
        number: usize,
        next: usize,
    },
    Declare {
        count: usize,
        next: usize,
    },
    Foreign {
        place: usize,
        size: usize,
    },
}

// How the children of a holder are read: values; keys and values in turn; or entries, each in force for those behind it.
#[derive(Clone, Copy, Debug, PartialEq, Eq)]
pub enum Children {
    Plain,
    Keyed,
    Entries,
}
