// What stands at a place of a document, its children aside.
#![tactic(auto)]

mod behind;
mod body;
mod count;
mod position;

pub use behind::key_at;
pub use body::is_codepoint;
pub use count::{index, length_at};
pub use position::head_at;
