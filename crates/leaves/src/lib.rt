// Rows of leaves: of any, by its content; and of those that are met most, straight from their bytes. And where such a leaf, or a key, ends.
#![tactic(auto)]

mod ends;
mod leaf;
mod plain;

pub use ends::{end_key, end_plain};
pub use leaf::leaf_row;
pub use plain::lay_plain;
