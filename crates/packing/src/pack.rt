// An answer in one number.
ghost use Rattle.std.specs.Prelude.{◌≡◌, ◌^◌, ◌<◌};
ghost use Rattle.packing.specs.Packed.{packed};

// The paper's number in the top 8 bits, the number beside it in the low 56.
pub fn pack(number: u32, beside: u64) -> u64
    requires { (number < 2 ^ 8) × (beside < 2 ^ 56) }
    ensures { result ≡ packed number beside }
{
    beside + 72057594037927936 * number as u64
}
