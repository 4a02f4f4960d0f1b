ghost use Rattle.std.specs.Prelude.{◌≡◌, ◌≤◌, length};
ghost use Rattle.plan.specs.Inner.{plan_bytes};

use crate::marks::Marks;
use wide::Wide;

// The bytes that stand before a row's payload or its children: the marks, a lead, and the low `size` bytes of a number.
#[derive(Clone, Copy, Debug, PartialEq, Eq)]
pub struct Plan {
    pub marks: Marks,
    pub lead: u8,
    pub size: usize,
    pub value: Wide,
}

impl Plan {
    // How many bytes it is.
    pub fn len(self) -> usize
        requires { self.size ≤ 16 }
        ensures { result ≡ length (plan_bytes self) }
    {
        self.marks.len() + 1 + self.size
    }
}
