// The reports on the papers' worked examples.
#![tactic(auto)]

use std::io;

fn main(rt: HostRuntime) -> io::Result<()> {
    stored::run(&mut rt.stdin(), &mut rt.stdout())
}
