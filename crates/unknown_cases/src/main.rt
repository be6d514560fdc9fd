// Stored questions about unknown archives: a program has one run in the gate, and 65,536 bytes of it.
#![tactic(auto)]

use std::io;

fn main(rt: HostRuntime) -> io::Result<()> {
    asking::ask_all(&mut rt.stdin(), &mut rt.stdout())
}
