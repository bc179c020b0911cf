// The text program, given more bytes than it reads: a description, dashes up to 4,096 bytes, and the
// description again (15).
#![tactic(auto)]

fn main(rt: HostRuntime) {
    console::run(&rt);
}
