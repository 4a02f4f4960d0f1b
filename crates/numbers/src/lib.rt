// The paper's numbers for what a call answers: 0 or the refusal's number, and the number beside it.
#![tactic(auto)]

mod beside;
mod numbered;

pub use beside::Beside;
pub use numbered::Numbered;
