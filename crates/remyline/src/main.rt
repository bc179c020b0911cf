// The text program (document 01, "The text program").
#![tactic(auto)]

fn main(rt: HostRuntime) {
    console::run(&rt);
}
