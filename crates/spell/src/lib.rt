// A row's own bytes: how many they are, and laying them in an output.
#![tactic(auto)]

mod put;

pub use put::{put_row, row_size};
