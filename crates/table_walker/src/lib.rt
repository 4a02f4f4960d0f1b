// A walker that holds the table that it walks.
#![tactic(auto)]

ghost use Rattle.std.specs.Prelude.{◌≡◌};
ghost use Rattle.walker.specs.Walk.{start_of, step_in};
ghost use Rattle.table_walker.specs.TableWalker.{walker_at, walker_in, walker_on, walker_along};

use walker::{Standing, Unmoved};

// A table of n rows, and a standing on it.
#[derive(Clone, Copy, Debug)]
pub struct Walker<'a> {
    pub table: &'a [u32],
    pub n: usize,
    pub at: Standing,
}

impl<'a> Walker<'a> {
    // A walker on row 0 of n rows.
    pub fn start(table: &'a [u32], n: usize) -> Walker<'a>
        ensures { result ≡ walker_at table.entry n (start_of n) }
    {
        let at = walker::start(n);
        Walker { table, n, at }
    }

    // The same table, stood on elsewhere: where a step led, or where an earlier one was asked from.
    pub fn to(self, at: Standing) -> Walker<'a>
        ensures { result ≡ walker_at self.entry.table self.entry.n at }
    {
        Walker { at, ..self }
    }

    // In: to the first child.
    pub fn step_in(self) -> Result<Standing, Unmoved>
        ensures { result ≡ walker_in self.entry }
    {
        walker::step_in(self.table, self.n, self.at)
    }

    // On: to the next child of the same holder.
    pub fn step_on(self) -> Result<Standing, Unmoved>
        ensures { result ≡ walker_on self.entry }
    {
        walker::step_on(self.table, self.n, self.at)
    }

    // Along: to the entry of a reference.
    pub fn step_along(self) -> Result<Standing, Unmoved>
        ensures { result ≡ walker_along self.entry }
    {
        walker::step_along(self.table, self.n, self.at)
    }
}

// The first child of row 0. Its parameters are plain.
pub fn first_child(table: &[u32], n: usize) -> Result<Standing, Unmoved>
    ensures { result ≡ step_in table.now n (start_of n) }
{
    Walker::start(table, n).step_in()
}
