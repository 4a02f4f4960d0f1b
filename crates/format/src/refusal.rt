ghost use Rattle.format.specs.Refusal.{refusal_number, refusal-small};

use numbers::Numbered;

// Why a position is refused: the paper's numbers 2 to 10 (specs/Refusal.antt).
#[derive(Clone, Copy, Debug, PartialEq, Eq)]
pub enum Refusal {
    Short,
    Marker,
    Huge,
    Text,
    Char,
    NoEntry,
    Empty,
    Deep,
    Extra,
}

// 2 to 10.
impl Numbered for Refusal {
    ghost number_of = { refusal_number };

    ghost small = { refusal-small };

    fn number(self) -> u32 {
        match self {
            Refusal::Short => 2,
            Refusal::Marker => 3,
            Refusal::Huge => 4,
            Refusal::Text => 5,
            Refusal::Char => 6,
            Refusal::NoEntry => 7,
            Refusal::Empty => 8,
            Refusal::Deep => 9,
            Refusal::Extra => 10,
        }
    }
}
