// The text program, given a run whose lines take two turns of the buffer.
#![tactic(auto)]

fn main(rt: HostRuntime) {
    console::run(&rt);
}
