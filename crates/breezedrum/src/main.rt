// The report on the sheet that standard input holds. Its stored run is the longest good sheet.
#![tactic(auto)]

fn main(rt: HostRuntime) {
    command::run(&rt, &mut rt.stdin(), &mut rt.stdout());
}
