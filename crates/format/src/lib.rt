// What a document of the marker format means.
#![tactic(auto)]

mod children;
mod head;
mod refusal;
mod refused;
mod unfilled;
mod unmeasured;

pub use children::in_foreign;
pub use head::{Children, Content, Count, Head, Holder, Spelling};
pub use refusal::Refusal;
pub use refused::Refused;
pub use unfilled::Unfilled;
pub use unmeasured::Unmeasured;

// How deep positions nest where a caller does not say.
pub const DEPTH_LIMIT: usize = 32;
