// Numbers of 128 bits, their bodies of 1 to 16 bytes, and the laws of every coded number.
#![tactic(auto)]

pub mod body;
pub mod integer;
pub mod near;
pub mod size;
mod step;
pub mod wide;

pub use wide::Wide;
