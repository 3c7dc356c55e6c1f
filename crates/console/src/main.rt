// The bench console: what a mechanic types into and a script pipes into. The stored scripts are tried on it.
#![tactic(auto)]

fn main(rt: HostRuntime) {
    terminal::serve(
        b"console",
        &mut rt.stdin(),
        &mut rt.stdout(),
        &mut rt.stderr(),
    );
}
