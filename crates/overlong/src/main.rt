// The report program, run on more bytes than it reads.
#![tactic(auto)]

fn main(rt: HostRuntime) {
    command::run(&rt, &mut rt.stdin(), &mut rt.stdout());
}
