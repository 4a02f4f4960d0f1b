ghost use Rattle.std.specs.Prelude.{◌≡◌, length};
ghost use Rattle.plan.specs.Inner.{marks_of};

// The bytes that stand before a plan's lead.
#[derive(Clone, Copy, Debug, PartialEq, Eq)]
pub enum Marks {
    Bare,
    One(u8),
    Two(u8, u8),
}

impl Marks {
    pub fn len(self) -> usize
        ensures { result ≡ length (marks_of self) }
    {
        match self {
            Marks::Bare => 0,
            Marks::One(_) => 1,
            Marks::Two(_, _) => 2,
        }
    }
}
