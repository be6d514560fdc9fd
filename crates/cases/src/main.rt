// Stored questions of every kind.
#![tactic(auto)]

use std::io;

fn main(rt: HostRuntime) -> io::Result<()> {
    asking::ask_all(&mut rt.stdin(), &mut rt.stdout())
}
