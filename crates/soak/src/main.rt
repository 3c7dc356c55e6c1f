// The bench console once more, for a script that is made afresh at each check.
#![tactic(auto)]

fn main(rt: HostRuntime) {
    terminal::serve(b"soak", &mut rt.stdin(), &mut rt.stdout(), &mut rt.stderr());
}
