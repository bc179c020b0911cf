// The text program, given a description of 789 bytes, the most that one has. Its limit is refused (4).
#![tactic(auto)]

fn main(rt: HostRuntime) {
    console::run(&rt);
}
