// The paper's listing program, run on one byte more than it takes. `rt ci` runs a program on one input, so it is one of its own.
#![tactic(auto)]

use std::io;

fn main(rt: HostRuntime) -> io::Result<()> {
    lister::list_input(&mut rt.stdin(), &mut rt.stdout())
}
