ghost use Rattle.std.specs.Prelude.{◌≡◌, ℕ};
ghost use Rattle.numbers.specs.Answer.{beside_in};

use crate::numbered::Numbered;

// What has a number beside its number: a count or a place, 0 where there is none.
pub trait Beside: Numbered {
    ghost beside_of: { Self → ℕ };

    fn beside(self) -> usize
        ensures { result ≡ beside_of self };
}

impl<E: Beside + Copy> Beside for Result<usize, E> {
    ghost beside_of = { beside_in E.beside_of };

    fn beside(self) -> usize {
        match self {
            Ok(n) => n,
            Err(why) => why.beside(),
        }
    }
}
