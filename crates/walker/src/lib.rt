// Steps over a lent table, checked or not.
#![tactic(auto)]

mod standing;
mod steps;
mod unmoved;

ghost use Rattle.std.specs.Prelude.{◌≡◌};
ghost use Rattle.walker.specs.Walk.{start_of};

pub use standing::Standing;
pub use steps::{step_along, step_in, step_on};
pub use unmoved::Unmoved;

// The standing on row 0 of n rows.
pub fn start(n: usize) -> Standing
    ensures { result ≡ start_of n }
{
    Standing { row: 0, bound: n }
}
