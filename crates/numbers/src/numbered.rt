ghost use Rattle.std.specs.Prelude.{◌≡◌, ℕ, ◌<◌, ◌^◌};
ghost use Rattle.numbers.specs.Answer.{number_in};
ghost use Rattle.numbers.specs.Small.{number_in-small};

// What has a number in the paper: a refusal, or an answer that may be one.
pub trait Numbered {
    ghost number_of: { Self → ℕ };

    // 0, or the refusal's number.
    fn number(self) -> u32
        ensures { result ≡ number_of self };

    // It takes 8 bits.
    ghost small: { (a : Self) → number_of a < 2 ^ 8 };
}

impl<T: Copy, E: Numbered + Copy> Numbered for Result<T, E> {
    ghost number_of = { number_in E.number_of };

    ghost small = { number_in-small E.number_of E.small };

    fn number(self) -> u32 {
        match self {
            Ok(_) => 0,
            Err(why) => why.number(),
        }
    }
}
