// The text program, given the longest description and one byte after it (15).
#![tactic(auto)]

fn main(rt: HostRuntime) {
    console::run(&rt);
}
