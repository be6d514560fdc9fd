// The reports on the samples: each refusal, and sheets at the edges of what a report can hold.
#![tactic(auto)]

use std::io;

fn main(rt: HostRuntime) -> io::Result<()> {
    stored::run(&mut rt.stdin(), &mut rt.stdout())
}
