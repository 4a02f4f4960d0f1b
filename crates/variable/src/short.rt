ghost use Rattle.variable.specs.Answer.{short_number, short-small};

use numbers::Numbered;

// 2: too few bytes.
#[derive(Clone, Copy, Debug, PartialEq, Eq)]
pub struct Short;

impl Numbered for Short {
    ghost number_of = { short_number };

    ghost small = { short-small };

    fn number(self) -> u32 {
        2
    }
}
