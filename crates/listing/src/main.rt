// The paper's listing program, run on its example.
#![tactic(auto)]

use std::io;

fn main(rt: HostRuntime) -> io::Result<()> {
    lister::list_input(&mut rt.stdin(), &mut rt.stdout())
}
