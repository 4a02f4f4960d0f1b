// What a holder says of its children, and a foreign document of its body.
ghost use Rattle.std.specs.Prelude.{◌≡◌, ◌<◌};
ghost use Rattle.format.specs.Value.{kind_of, child_count, children_of, is_key, in_force, in_foreign};

use crate::head::{Children, Holder};
use rows::Row;

impl Holder {
    // The kind of its row.
    pub fn kind(self) -> u32
        ensures { result ≡ kind_of self }
    {
        match self {
            Holder::Array => Row::ARRAY,
            Holder::Record => Row::RECORD,
            Holder::Map => Row::MAP,
        }
    }

    // How many children stand for n elements or entries.
    pub fn children(self, n: usize) -> usize
        requires { n < 4294967296 }
        ensures { result ≡ child_count self n }
    {
        match self {
            Holder::Array => n,
            Holder::Record => 2 * n,
            Holder::Map => 2 * n,
        }
    }

    // How they are read.
    pub fn reading(self) -> Children
        ensures { result ≡ children_of self }
    {
        match self {
            Holder::Array => Children::Plain,
            Holder::Record => Children::Keyed,
            Holder::Map => Children::Plain,
        }
    }
}

impl Children {
    // Whether child number i is a key.
    pub fn is_key(self, i: usize) -> bool
        ensures { result ≡ is_key self i }
    {
        match self {
            Children::Plain => false,
            Children::Keyed => i % 2 == 0,
            Children::Entries => false,
        }
    }

    // How many entries are in force for it, of the `around` around its holder.
    pub fn in_force(self, around: usize, i: usize) -> usize
        ensures { result ≡ in_force self around i }
    {
        match self {
            Children::Plain => around,
            Children::Keyed => around,
            Children::Entries => i,
        }
    }
}

// How many entries are in force at the start of a foreign body, of those around it.
pub fn in_foreign(around: usize) -> usize
    ensures { result ≡ in_foreign around }
{
    0
}
