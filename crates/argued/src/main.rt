// The report program, run with an argument: nothing is read and nothing reported.
#![tactic(auto)]

fn main(rt: HostRuntime) {
    command::run(&rt, &mut rt.stdin(), &mut rt.stdout());
}
